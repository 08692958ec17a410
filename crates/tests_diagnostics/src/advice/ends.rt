//! For a text that ends within a declaration.

pub(crate) const ROWS: &str = r"behind `channel` stands a name
channel

behind `datatype` stands a name
datatype

behind `nametype` stands a name
nametype

behind `->` stands a process
channel a P = a ->

`tail` is a keyword, and stands before its arguments in brackets: it names nothing, and `tail'` is a name
channel a P = a -> tail

an event is no process: behind it stands `->`, as `c!x -> SKIP`
channel c : {0..1} P = c!0
channel c : {0..1} P = c?x

behind `=` stands a process, and behind that of a datatype or nametype its values
P =

behind `;` stands a process, and none ends a declaration
P = STOP;

behind this operator stands a process
P = STOP []
P = STOP |~|
P = STOP |||
P = STOP /\
P = STOP [>
P(x) = x == 0 &

an assertion is `assert P [T= Q`, `assert P [F= Q`, `assert P :[deadlock free]` or `assert P :[divergence free]`
P = STOP assert P";
