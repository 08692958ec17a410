//! For equations that are values.

pub(crate) const ROWS: &str =
    r"behind the condition of an `if` stands `then`, and behind a guard `&`
P(x) = if x == 0 Q else SKIP
P(x) = if x != 0 Q else SKIP
P(x) = if x < 2 Q else SKIP
P(x) = if x <= 2 Q else SKIP
P(x) = if x > 0 Q else SKIP
P(x) = if x >= 1 Q else SKIP
P(x) = if x Q else SKIP

an equation is a process, and no value: a constant is the size of a nametype, as `card(N)` of `nametype N = {0..2}`, and what a function would compute is written where it is used
F(x) = if x == 0 then 1 else 2
channel a N = a -> 3 P = STOP
channel a N = a -> 3 datatype D = A
channel a N = a -> 3 nametype M = {0}
channel a N = a -> 3 channel b
channel a N = a -> 3 assert STOP [T= STOP";
