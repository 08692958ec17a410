//! Scripts with all that a check makes.

/// 13 lines with each form of process, of expressions and of sets of events.
pub(crate) const PAINTING: &str = r"datatype Colour = Red | Green
nametype Small = union({0..3},{4 % 3})
nametype Rows = {<>, <{1}>, <{2,0},{}>}
channel paint, wipe : Colour.Small
channel rows, others : Rows
channel stop
PAINT(n,seen) =
  (not member(n,seen) & paint?c!n -> PAINT((n+1) % 4,union(seen,{n})))
  [] ([] c:Colour @ wipe.c?k:diff(Small,seen) -> stop -> EACH(<k>,<>))
EACH(keys,found) = if null(keys) then STOP else (rows?r -> EACH(tail(keys),r ^ found))
SYSTEM = (PAINT(0,{}) [| {| paint.Red, wipe |} |] (||| k:Small @ paint?c?l:{k} -> SKIP))
BOTH = (SYSTEM \ {| stop |}) [{| paint |} || diff({wipe.Red.0},{stop})] (STOP[[paint <- wipe, rows <- others, stop <- stop]])
assert BOTH [T= SYSTEM
";

/// 4 lines with a declaration of each sort.
pub(crate) const SMALL: &str = r"datatype D = A | B
channel c : D.{0..1}
P(s) = c?x!0 -> P(s^<x>)
assert P(<>) [T= STOP
";

pub(crate) const BUFFERS: &str = r"channel in, mid, out : {0..1}
COPY1 = in?x -> mid!x -> COPY1
COPY2 = mid?x -> out!x -> COPY2
CHAIN = (COPY1 [| {| mid |} |] COPY2) \ {| mid |}
BUF(n,s) = (#s < n & in?x -> BUF(n,s^<x>)) [] (#s > 0 & out!head(s) -> BUF(n,tail(s)))
assert BUF(2,<>) [F= CHAIN
assert BUF(1,<>) [F= CHAIN
";

/// Declarations of several sorts in any order.
pub(crate) const MIXED: &str = r"assert STOP [F= P(é)
P(x) = c!x!true -> Q
channel ω
datatype Letter = é | a'
channel c, d : {a',é}.Bool
nametype None = {}
Q = STOP
datatype Two = y
nametype Numbers = {3,-1,2,3}
channel e : {y}.Numbers.{None,Numbers}
R(i,j,k) = R(k,j,i)
assert Q [T= Q
";
