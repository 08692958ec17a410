//! For an operator between processes, or the beginning of one, that cannot stand where it does.

pub(crate) const ROWS: &str = r"no `;` ends a declaration
channel a; channel b

write `:[divergence free]`, without a model behind it
P = STOP assert P :[divergence free [FD]]

`head` is a keyword, and stands before its arguments in brackets: it names nothing, and `head'` is a name
P = head [] STOP

there is no `[FD=`: write `[F=`, and beside it `assert Q :[divergence free]`
P = STOP assert P [] P [FD= STOP

between the sides of an assertion stands `[T=` or `[F=`, without a space in it
P = STOP assert P [] P [ T= STOP
P = STOP assert P [] P [ F= STOP

there are only traces, `[T=`, and failures, `[F=`
P = STOP assert P [] P [R= STOP
P = STOP assert P [] P [V= STOP

write an equation that calls itself: `P(s) = if null(s) then SKIP else c!head(s) -> SKIP ; P(tail(s))`
P = ; x:<0,1> @ SKIP

a composition of many parts is an equation that calls itself: `Q(n) = if n == 0 then P(0) else Q(n-1) [| A |] P(n)`
channel a P = [| {a} |] x:{0..2} @ STOP

one `;` joins two processes, and none ends a declaration
P = SKIP; ; SKIP

put a choice over a set in brackets, as `a -> ([] x:S @ P)`
channel a P = a -> [] x:{0..2} @ STOP

put brackets around what is hidden from, as `(a -> P) \ {a}`, or around both, as `a -> (P \ {a})`
channel a P = a -> STOP \ {a}

put brackets around what is renamed, as `(P \ {a})[[a <- b]]`, or around both, as `P [] (Q[[a <- b]])`
channel a, b P = STOP \ {a}[[a <- b]]

an event is no process: behind it stands `->`, as `c!x -> SKIP`
channel c : {0..1} P = c!0 [] STOP
channel c : {0..1} P = c?x [] STOP
channel c : {0..1} P = c.0 [] STOP

an equation is a process, and no value: a constant is the size of a nametype, as `card(N)` of `nametype N = {0..2}`, and what a function would compute is written where it is used
P = 3 [] STOP

put brackets around one of the two, as `(P [A || B] Q) [C || D] R`
channel a P = STOP [] STOP [{a} || {a}] STOP

two different operators are kept apart by brackets, as `(P [] Q) |~| R` or `P [] (Q |~| R)`, and so are two with sets, as `(P [| A |] Q) [| B |] R`
P = STOP [] STOP |~| STOP";
