//! For `if` where an operand or an expression is asked for.

pub(crate) const ROWS: &str = r"put the `if` in brackets, as `a -> (if x == 0 then P else Q)`
channel a P(x) = a -> if x == 0 then STOP else SKIP
P(x) = x < 3 & if x == 0 then STOP else SKIP
P(x) = STOP [] if x == 0 then STOP else SKIP
P(x) = STOP |~| if x == 0 then STOP else SKIP
P(x) = SKIP ; if x == 0 then STOP else SKIP
P(x) = STOP ||| if x == 0 then STOP else SKIP
P(x) = STOP /\ if x == 0 then STOP else SKIP
P(x) = STOP [> if x == 0 then STOP else SKIP
channel a P(x) = STOP [| {a} |] if x == 0 then STOP else SKIP
channel a P(x) = STOP [{a} || {a}] if x == 0 then STOP else SKIP

an expression has no `if`: write it around the process, as `if x == 0 then c!1 -> P else c!0 -> P`
channel c : {0..1} P(x) = c!(if x == 0 then 1 else 0) -> STOP";
