//! What may be meant where tokens are no script, by the tokens around the place.

pub(crate) mod calls;
pub(crate) mod comparisons;
pub(crate) mod constants;
pub(crate) mod ends;
pub(crate) mod events;
pub(crate) mod keywords;
pub(crate) mod mixed;
pub(crate) mod nested;
pub(crate) mod notation;
pub(crate) mod operands;
pub(crate) mod operators;
pub(crate) mod patterns;
pub(crate) mod sets;
pub(crate) mod texts;
pub(crate) mod values;
pub(crate) mod words;

/// Where no declaration has begun.
pub(crate) const NO_DECLARATION: &str =
    "a declaration begins with `channel`, `datatype`, `nametype` or `assert`, or with a head, as `P = Q` and `P(x) = Q`";

/// Where the declaration before the place begins on a line above.
pub(crate) const LOOK_ABOVE: &str =
    "where something is missing before it, look back: the declaration above may lack a `)`, an `else`, or a process";

/// Where it begins on the same line.
pub(crate) const LOOK_BACK: &str =
    "where something is missing before it, look back: what stands before it may lack a `)`, an `else`, or a process";
