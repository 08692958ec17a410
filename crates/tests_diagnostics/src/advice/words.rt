//! For words of FDR, and for what is asked in an assertion.

pub(crate) const ROWS: &str = r"there is no `let`: write `[] y:{E} @ P` for `let y = E within P`
P = let x = 1 within STOP
P = let Q = STOP within Q

there is no `subtype`: write the set, as `nametype E = {A, B}`
datatype D = A | B subtype E = A

there are no modules: give the names in it a beginning of their own
module M

leave the line out: nothing is printed
print 1

leave the line out: `chase` and `prioritise` may change an answer, and nothing stands in their place
external chase
external prioritise

leave the line out, and the functions that it names where they are called: they change no answer
transparent normal
external normal

write `:[deadlock free]`, and beside it `assert P :[divergence free]`
P = STOP assert P :[deadlock free [FD]]

write `:[deadlock free]` or `:[deadlock free [F]]`, which ask for one thing
P = STOP assert P :[deadlock free [T]]

write `:[deadlock free]` and `:[divergence free]`, without `-`
P = STOP assert P :[deadlock-free]
P = STOP assert P :[divergence-free]

there is no `[FD=`: write `[F=`, and beside it `assert Q :[divergence free]`
P = STOP assert P [FD= STOP

write `:[divergence free]`
P = STOP assert P :[livelock free]

whether a process is deterministic cannot be asked
P = STOP assert P :[deterministic]

put the trace on the left: `assert P [T= a -> b -> STOP` for `<a,b>`
P = STOP assert P :[has trace]: <>

there are only traces, `[T=`, and failures, `[F=`
P = STOP assert P [R= STOP
P = STOP assert P [V= STOP

between the sides of an assertion stands `[T=` or `[F=`, without a space in it
P = STOP assert P [ T= STOP
P = STOP assert P [= STOP

the remainder is written `%`, as `x % 3`
channel c : {0..2} P(x) = c!(x mod 3) -> STOP

there is no division: `x / y` is the `z` of `[] z:S @ z*y <= x and x < (z+1)*y & P`
channel c : {0..2} P(x) = c!(x div 3) -> STOP";
