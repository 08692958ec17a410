//! For operators in expressions, and for what is missing before a token.

pub(crate) const ROWS: &str =
    r"what stands before this is a process, and has no value: write `#s` for `length(s)`, and `card(S) == 0` for `empty(S)`
P(s) = length(s) < 2 & STOP
P(s) = length(s) <= 2 & STOP
P(s) = length(s) > 2 & STOP
P(s) = length(s) >= 2 & STOP
P(s) = length(s) == 2 & STOP
P(s) = length(s) != 2 & STOP
P(s) = length(s) + 1 < 2 & STOP
P(s) = length(s) - 1 < 2 & STOP

before `&` stands a truth value, and no process
P = (STOP) & STOP

a field is one name or number, or stands in brackets, as `c!(n+1)`
channel c : {0..2} P(n) = c!n+1 -> STOP
channel c : {0..2} P(n) = c!n-1 -> STOP
channel c : {0..2} P(n) = c!n*2 -> STOP
channel c : {0..2} P(n) = c!n%2 -> STOP
channel c : {<>,<0>} P(s) = c!s^s -> STOP

commas stand between channels, as `channel a, b`, and dots between the sets of their fields, as `channel c : {0..1}.Bool`
channel a b channel c

an assertion is `assert P [T= Q`, `assert P [F= Q`, `assert P :[deadlock free]` or `assert P :[divergence free]`
P = STOP assert P = STOP

no `;` ends a declaration
P = STOP; Q = STOP

this `=` makes the name before it the head of an equation: the declaration above may lack a process at its end, as behind `->`; equality is written `==`
channel a P = a -> Q = STOP

before `->` stands an event, a channel with its fields: a process is followed by `;`
P = STOP -> STOP

where a name begins an equation, `=` or `(` stands behind it; two processes are joined by an operator, as `P ; Q`
P = Q R S

parameters, and what an equation is called with, are kept apart by commas, as `P(x, y)`, and processes are joined by an operator, as `P ; Q`
P(x y) = STOP";
