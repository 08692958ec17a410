//! Sentences that several tables have.

pub(crate) const ASSERTION: &str =
    "an assertion is `assert P [T= Q`, `assert P [F= Q`, `assert P :[deadlock free]` or `assert P :[divergence free]`";

pub(crate) const CONSTANT: &str =
    "an equation is a process, and no value: a constant is the size of a nametype, as `card(N)` of `nametype N = {0..2}`, and what a function would compute is written where it is used";

pub(crate) const EQUALITY: &str = "equality is written `==`";

pub(crate) const EVENT_ALONE: &str =
    "an event is no process: behind it stands `->`, as `c!x -> SKIP`";

pub(crate) const MANY: &str =
    "a composition of many parts is an equation that calls itself: `Q(n) = if n == 0 then P(0) else Q(n-1) [| A |] P(n)`";

pub(crate) const NAMED_SET: &str =
    "an equation is a process: a set of values is named by `nametype S = {0..2}`, and a set of events has no name: write it where it is used, as `{| c, d |}`";

pub(crate) const NO_END: &str = "no `;` ends a declaration";

pub(crate) const PAIRS: &str =
    "there are no pairs: give the channel two fields, as `channel e : {0..1}.{0..1}` and `e?x!y`";

pub(crate) const REFINED_FD: &str =
    "there is no `[FD=`: write `[F=`, and beside it `assert Q :[divergence free]`";

pub(crate) const REFINED_RV: &str = "there are only traces, `[T=`, and failures, `[F=`";

pub(crate) const REFINEMENT: &str =
    "between the sides of an assertion stands `[T=` or `[F=`, without a space in it";

pub(crate) const UNCALLED: &str =
    "`{before}` is a keyword, and stands before its arguments in brackets: it names nothing, and `{before}'` is a name";
