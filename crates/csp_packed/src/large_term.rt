//! Terms past the limits.

ghost use Rattle.std.specs.Prelude.{◌≡◌, IfOk, IsFalse};
ghost use Rattle.theory_semantics.specs.Meaning.Limits.{fits};
ghost use Rattle.csp_term.specs.Term.{process_of};
ghost use Rattle.csp_packed.specs.Within.{past_prop};

use csp_term::{Memory, Term, TryCopy};
use std::alloc::Allocator;

/// A term past the limits.
#[derive(Drop)]
#[derive_where(PartialEq, Eq, Hash)]
pub struct LargeTerm<A: Allocator> {
    pub(crate) term: Term<A>,
    ghost past: { IsFalse (fits (process_of term)) } by { past_prop (process_of term) },
}

impl<A: Allocator + Copy> LargeTerm<A> {
    /// A copy of the term in the given allocator, or `Memory` where that has no room.
    pub(crate) fn of(alloc: A, term: &Term<A>) -> Result<LargeTerm<A>, Memory>
        requires { IsFalse (fits (process_of term.now)) }
        ensures { IfOk result (λ large. process_of large.term ≡ process_of term.now) }
    {
        let term = term.try_copy(alloc)?;
        Ok(LargeTerm { term })
    }
}
