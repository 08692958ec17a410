//! Scripts, as texts.

use csp_kinds::check;
use csp_lex::tokens;
use csp_parse::parse;
use csp_term::Script;
use std::alloc::Global;
use std::test::Fail;

/// Two copiers in a chain are a buffer with two places.
pub(crate) const IN_A_BUFFER_OF_TWO: &str = r"channel in, mid, out : {0..1}
COPY1 = in?x -> mid!x -> COPY1
COPY2 = mid?x -> out!x -> COPY2
CHAIN = (COPY1 [| {| mid |} |] COPY2) \ {| mid |}
BUF(n,s) = (#s < n & in?x -> BUF(n,s^<x>)) [] (#s > 0 & out!head(s) -> BUF(n,tail(s)))
assert BUF(2,<>) [F= CHAIN
";

/// They are none with one place.
pub(crate) const IN_A_BUFFER_OF_ONE: &str = r"channel in, mid, out : {0..1}
COPY1 = in?x -> mid!x -> COPY1
COPY2 = mid?x -> out!x -> COPY2
CHAIN = (COPY1 [| {| mid |} |] COPY2) \ {| mid |}
BUF(n,s) = (#s < n & in?x -> BUF(n,s^<x>)) [] (#s > 0 & out!head(s) -> BUF(n,tail(s)))
assert BUF(1,<>) [F= CHAIN
";

/// The first level has one row, the second a hundred, and the third one.
pub(crate) const ONE_WIDE_LEVEL: &str = "channel c, d : {0..99}
R = (c?x -> R) [] (d?x -> R)
assert R [T= c?x -> d!x -> STOP
";

/// Three levels have a hundred rows.
pub(crate) const THREE_WIDE_LEVELS: &str = "channel c, d : {0..99}
R = (c?x -> R) [] (d?x -> R)
assert R [T= c?x -> d!x -> c!x -> d!x -> STOP
";

/// Each of the hundred rows of a level has a violation.
pub(crate) const A_HUNDRED_VIOLATIONS: &str = "channel c, d : {0..99}
R = c?x -> R
assert R [T= c?x -> d!x -> STOP
";

/// The second level has seventy rows.
pub(crate) const SEVENTY_ROWS: &str = "channel c, d : {0..69}
R = (c?x -> R) [] (d?x -> R)
assert R [T= c?x -> d!x -> STOP
";

/// Two parts, each with its call and two prefixes.
pub(crate) const TWO_PARTS: &str = "channel a, b, c, d
P = a -> b -> P
Q = c -> d -> Q
assert P ||| Q :[deadlock free]
";

/// Two parts, each with its call, its input, and an output of each value.
pub(crate) const TWO_COPIERS: &str = r"channel in, mid, out : {0..1}
COPY1 = in?x -> mid!x -> COPY1
COPY2 = mid?x -> out!x -> COPY2
assert (COPY1 [| {| mid |} |] COPY2) \ {| mid |} :[deadlock free]
";

/// A call and two prefixes, under no operator.
pub(crate) const ONE_PART: &str = "channel a, b
P = a -> b -> P
assert P :[deadlock free]
";

/// The script of the text.
pub(crate) fn script(alloc: Global, text: &str) -> Result<Script<Global>, Fail> {
    let list = tokens(alloc, text.as_bytes())?;
    let raw = parse(alloc, &list)?;
    Ok(check(alloc, &raw)?)
}
