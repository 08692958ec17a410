//! Outcomes of a check.

ghost use Rattle.std.specs.Prelude.{◌≡◌, IfOk};

use crate::shown::Shown;
use csp_term::{AllocHandle, Fault, Memory};

/// Why there is no answer.
#[derive(Clone, Copy, Debug, PartialEq, Eq)]
pub enum Why {
    /// More pairs are reachable than the limit allows.
    Pairs,
    /// The specification has more nodes than the limit allows, or more states than that in one of them.
    Nodes,
    /// A side reaches a term that is large: past the limits of a term, or with a step that leads past them.
    Term,
    /// A side reaches a term that is faulty, with this cause.
    Fault(Fault),
    /// Memory was refused, and nothing is said of the assertion.
    Memory,
}

/// The answer to an assertion.
#[derive(Drop)]
pub enum Outcome<A: AllocHandle> {
    /// What is asked is so.
    Holds,
    /// It is not: this is a violation.
    Fails(Shown<A>),
    /// There is no answer, for this reason.
    Unknown(Why),
    /// What is asked with `not` is not so, since without it nothing is lacking.
    Denied,
}

impl<A: AllocHandle> Outcome<A> {
    ghost use Rattle.theory_search.specs.Answer.{as_written, exchanged};
    ghost use Rattle.verdict.specs.Outcome.{outcome_of};

    /// An equal outcome in the given allocator, or `Memory` where that has no room.
    pub fn try_copy(&self, alloc: A) -> Result<Outcome<A>, Memory>
        ensures { IfOk result (λ copy. outcome_of copy ≡ outcome_of self.now) }
    {
        match self {
            Outcome::Holds => Ok(Outcome::Holds),
            Outcome::Fails(shown) => Ok(Outcome::Fails(shown.try_copy(alloc)?)),
            Outcome::Unknown(why) => Ok(Outcome::Unknown(*why)),
            Outcome::Denied => Ok(Outcome::Denied),
        }
    }

    /// The answer to an assertion, from the answer to it without its `not`: `not` exchanges that it holds and that it fails.
    pub fn as_written(self, negated: bool) -> Outcome<A>
        ensures { outcome_of result ≡ as_written negated (outcome_of self) }
    {
        if negated { self.exchanged() } else { self }
    }

    fn exchanged(&self) -> Outcome<A>
        ensures { outcome_of result ≡ exchanged (outcome_of self.now) }
    {
        match self {
            Outcome::Holds => Outcome::Denied,
            Outcome::Fails(_) => Outcome::Holds,
            Outcome::Unknown(why) => Outcome::Unknown(*why),
            Outcome::Denied => Outcome::Holds,
        }
    }
}
