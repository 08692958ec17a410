//! For keywords that stand where a name is asked for.

pub(crate) const ROWS: &str =
    r"`STOP` is a process, and here stands none: an equation is called with values, and its parameters are names
P(STOP) = SKIP
P(x,STOP) = SKIP

`SKIP` is a process, and here stands none: an equation is called with values, and its parameters are names
P = Q(SKIP)
P = Q(1,SKIP)

`if` is a keyword, so it names nothing: `if'` is a name
channel if
channel a, if
nametype if = {0}

`union` is a keyword, so it names nothing: `union'` is a name
datatype union = A

`STOP` is a keyword, so it names nothing: `STOP'` is a name
datatype D = STOP
datatype D = A | STOP

`head` is a keyword, so it names nothing: `head'` is a name
channel c : {0..1} P = c?head -> STOP
channel a P = STOP \ {| head |}
channel a P = STOP[[head <- a]]
channel a P = STOP[[a <- head]]
head = STOP
P = [] head:{0..1} @ STOP
P(head) = STOP
P(head,n) = STOP
P(n,head) = STOP
P(n,head,m) = STOP

`head` is a keyword, and stands before its arguments in brackets: it names nothing, and `head'` is a name
channel a P = head -> STOP

equality is written `==`
P(x) = if true = x then STOP else SKIP
P(x) = if false = x then STOP else SKIP

`STOP` is a keyword, so it names nothing: `STOP'` is a name
channel a P = a -> STOP = SKIP
P = STOP(1)";
