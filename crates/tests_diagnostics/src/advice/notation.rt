//! For signs and words of other notations, and for what keeps declarations apart.

pub(crate) const ROWS: &str =
    r"truth values are joined by `and`: one `&` stands between a guard and its process
P(x) = x == 0 && x < 3 & STOP

truth values are joined by `or`
P(x) = x == 0 || x == 1 & STOP

parallel composition names the events that are shared, as `P [| {| a |} |] Q`, or those of each side, as `P [{| a |} || {| b |}] Q`
P = STOP || STOP

write `P [| A |] Q` for `P |[ A ]| Q`, with the events of `A`, as `P [| {| a |} |] Q`
channel a P = STOP |[ {a} ]| STOP

negation is written `not`, and an output stands behind a channel, as `c!x -> P`
P(x) = !(x == 0) & STOP

equality is written `==`
P(x) = if x = 0 then STOP else SKIP
P(x) = if 0 = x then STOP else SKIP

a space keeps `>` and `==` apart: `<x> == s`
P(x,s) = <x>==s & STOP

a space keeps `<` and `-` apart: `< -1>`
P(s) = s == <-1> & STOP

no bracket is open here: leave it out, or look back for the one that it closes
P = STOP)
P = STOP}
P = STOP |}

no `;` ends a declaration
P = STOP; datatype D = A
P = STOP; nametype N = {0}
P = STOP; channel a
P = STOP; assert P [T= STOP";
