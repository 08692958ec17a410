//! For what is of another kind than its place asks for.

pub(crate) const ROWS: &str =
    r"numbers, truth values, each datatype, sequences and sets are kinds of their own: look at what each parameter, field and operator is given here and above; `<` and `<=` are of numbers
P(n) = n == 0 & STOP assert P(true) [T= STOP
P = 1 == true & STOP
P(n) = n == 0 and n == true & STOP
nametype N = {0,true}

here stands a channel: an event is no value, and no parameter, input or replicated name stands for one
P(n) = n -> STOP
P(n) = n!0 -> STOP
P(n) = n?x -> STOP

both sides of a renaming are channels, whose fields have the same values
channel a P(n) = STOP[[a <- n]]
channel a P(n) = STOP[[n <- a]]

a member of this set is a value, and no event or process: write the branches, as `(a -> P) [] (b -> P)`, or declare the values, as `datatype D = A | B`
channel a, b P = [] e:{a,b} @ STOP

a field is given the set of its values, as `channel c : {0..5}`
channel c : 5
channel c : {0..1}.5

behind `->` stands a process: an event is none, as the `b` of `a -> b -> STOP`, and a parameter stands for a value
channel a, b P = a -> b

a process by its name is an equation, an event begins with a channel, and a value is a bound name, a constructor, a datatype or a nametype; what begins here has parts of kinds that do not fit
channel a P = a";
