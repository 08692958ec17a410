//! For sets of events, types and arrows.

pub(crate) const ROWS: &str =
    r"behind `[` stands a set of events, as in `P [{| a |} || {| b |}] Q`: a set has no name, and for `P [c <-> d] Q` rename both channels to a third, share it and hide it
P = STOP [A || B] STOP

there is no `[+ A +]`, and nothing stands in its place
P = STOP [+ A +] STOP

a set of events has no name: write it where it is used, as `{| c, d |}`
P = STOP [| A |] STOP
channel a P = STOP [{a} || B] STOP
P = STOP \ A
channel a A = {| a |}

the types of a name are not written: leave the line out
P :: Int

write the parts out, each with its events: `(P(0) [A || B] P(1)) [C || D] P(2)`, with the events of `A`, as `{a.0, b}`, in place of its name, and in `C` those of `A` and of `B`
P = || x:{0..2} @ [A(x)] STOP
P = (|| x:{0..2} @ [A(x)] STOP) \ {}
channel a P = a -> || x:{0..2} @ [A(x)] STOP
P = [] y:{0..1} @ || x:{0..2} @ [A(x)] STOP

a constructor with its fields stands in brackets, as `{(B.0)}`
datatype D = B.{0..1} nametype N = {B.0}

an equation is a process: a set of values is named by `nametype S = {0..2}`, and a set of events has no name: write it where it is used, as `{| c, d |}`
channel a : {0..1} A(i) = {a.i}

the arrow is written `->`
channel a P = a => STOP";
