//! Scripts, and the lines of their outcomes.

/// A text, and the lines that it is answered with.
pub(crate) type Row = (&'static str, &'static str);

/// A script whose one assertion fails.
pub(crate) const BEYOND_STOP: Row = (
    "channel a, b, c\nassert STOP [T= a -> STOP\n",
    "1 fails trace <> event a\n",
);

/// A script whose one assertion holds.
pub(crate) const WITHIN_PREFIX: Row = ("channel a, b, c\nassert a -> STOP [T= STOP\n", "1 holds\n");

/// Two copiers in a chain are a buffer with two places, and none with one.
pub(crate) const CHAIN: Row = (
    r"channel in, mid, out : {0..1}
COPY1 = in?x -> mid!x -> COPY1
COPY2 = mid?x -> out!x -> COPY2
CHAIN = (COPY1 [| {| mid |} |] COPY2) \ {| mid |}
BUF(n,s) = (#s < n & in?x -> BUF(n,s^<x>)) [] (#s > 0 & out!head(s) -> BUF(n,tail(s)))
assert BUF(2,<>) [F= CHAIN
assert BUF(1,<>) [F= CHAIN
",
    "1 holds\n2 fails trace <in.0> event in.0\n",
);
