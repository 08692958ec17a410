//! For parameters that are patterns.

pub(crate) const ROWS: &str =
    r"a parameter is a name, and no pattern: ask for its value in the body, as `P(n) = if n == 0 then Q else R`, with `null`, `head` and `tail` for a sequence
P(0) = STOP
P(<>) = STOP
P({}) = STOP
P(true) = STOP
P(false) = STOP
P(n+1) = STOP
P(n-1) = STOP
P(s^t) = STOP
P(B.x) = STOP";
