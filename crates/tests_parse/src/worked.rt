//! A longer script with declarations of all kinds: whole, and cut behind each of its tokens.

use csp_lex::{Refused as NoTokens, tokens};
use csp_parse::{GrammarFault, Refused, parse};
use std::alloc::Global;
use std::test::Fail;

/// 22 declarations.
pub(crate) const WORKED: &str = "channel a, b, c
datatype Colour = Red | Green | Blue
datatype Tree = Leaf | Node.{0..1}.Colour
nametype Small = union({0..3},{x * 2, 7 % 4}) -- and the rest
channel paint, wipe : Colour.Small.Bool.(N)
channel tree : Tree
STOPPED = STOP
SLIDE = tree?t -> STOP [> tree!(Node.1.Red) -> STOP [> tree.(Node.(0).Blue)?u:{Leaf,(Node.1.Red)} -> SKIP
COPY(n,s) = (#s < n & in?x -> COPY(n,s^<x>)) [] (#s > 0 & out!head(s) -> COPY(n,tail(s)))
TURN(t) = if t == 3 or not elem(Red,<>) and true then SKIP else paint.t!-1?y?z:{1,2} -> TURN(t+1)
EACH = [] k:Colour @ ||| l:Small @ |~| m:{} @ wipe.k -> (EACH)
CHAIN = (COPY(1,<>) [| {| mid, a.1 |} |] STOPPED) \\ {| mid |} \\ {b, c.2}
SPLIT = TURN(0) [{a} || diff({b},inter({c},{}))] ((x)) & STOPPED
NEW = (EACH ; CHAIN ; SKIP)[[a <- b, a.1 <- c.2.3]][[c <- a]] \\ {}
BROKEN = ((STOP /\\ SKIP) ||| (a -> STOP)) |~| null(s) & b -> SKIP {- the
last -} MEMBER(k) = member(k,{0..card({})}) & STOP
assert COPY(2,<>) [F= CHAIN
assert not true & STOP [T= NEW [] SPLIT [] BROKEN
assert (not true & STOP) [T= NEW
assert SPLIT [] BROKEN :[deadlock free]
assert not CHAIN :[deadlock free [F]]
assert NEW :[divergence free]
";

/// Whether the script's first bytes are a script, or are refused at their end for ending there.
fn begins_a_script(alloc: Global, bytes: usize) -> Result<bool, NoTokens> {
    let Some(cut) = WORKED.as_bytes().get(..bytes) else {
        return Ok(false);
    };
    let list = tokens(alloc, cut)?;
    let early = Refused::Grammar {
        fault: GrammarFault::UnexpectedEnd,
        place: list.end,
    };
    match parse(alloc, &list) {
        Ok(_) => Ok(true),
        Err(refused) => Ok(refused == early),
    }
}

/// A shorter one, which is cut behind each byte.
const SHORT: &str = "datatype D = N | B.{0..1}
assert not d!(B.1) -> STOP [> SKIP :[deadlock free [F]]
assert free [> F :[divergence free]
";

/// Whether the shorter script's first bytes are a script, or are refused for what they are.
fn is_answered(alloc: Global, bytes: usize) -> bool {
    let Some(cut) = SHORT.as_bytes().get(..bytes) else {
        return false;
    };
    match tokens(alloc, cut) {
        Ok(list) => !matches!(parse(alloc, &list), Err(Refused::Memory)),
        Err(refused) => !matches!(refused, NoTokens::Memory),
    }
}

#[test]
fn a_script_cut_behind_a_token_begins_one(rt: HostRuntime) -> Result<(), Fail> {
    let list = tokens(rt.alloc(), WORKED.as_bytes())?;
    for token in &list.tokens {
        assert!(rt; begins_a_script(rt.alloc(), token.to)?, "{}", token.place);
    }
    for bytes in 0..SHORT.len() {
        assert!(rt; is_answered(rt.alloc(), bytes), "{bytes}");
    }
    Ok(())
}
