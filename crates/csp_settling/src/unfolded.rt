//! What a term is unfolded to.

ghost use Rattle.std.specs.Prelude.{◌↔◌, IfOk, IsTrue};
ghost use Rattle.theory_syntax.specs.Process.{Process};
ghost use Rattle.csp_term.specs.Term.{process_of};
ghost use Rattle.csp_settling.specs.Settling.{IsPast, TellsSides, TellsUnfolded};

use csp_term::{Memory, Term};
use std::alloc::Allocator;

/// What a term is unfolded to.
#[derive(Drop)]
pub enum Unfolded<A: Allocator> {
    /// To itself.
    Same,
    /// To this term.
    To(Term<A>),
    /// To a term that is past the limits, of which no more is built.
    Past,
}

/// What both sides of an operator are unfolded to.
#[derive(Drop)]
pub(crate) enum Sides<A: Allocator> {
    /// To themselves.
    Same,
    /// To these terms.
    To(Term<A>, Term<A>),
    /// One of them to a term that is past the limits.
    Past,
}

impl<A: Allocator + Copy> Unfolded<A> {
    /// Whether the term is unfolded to one that is past the limits.
    pub(crate) fn is_past(&self) -> bool
        ensures { IsTrue result ↔ IsPast self.now }
    {
        matches!(self, Unfolded::Past)
    }

    /// What the term before is unfolded to, where this is what the term that it is unfolded to is.
    pub(crate) fn behind(self, term: Term<A>) -> Unfolded<A>
        ensures { (p v : Process) → TellsUnfolded (process_of term) v self
            → TellsUnfolded p v result }
    {
        match self {
            Unfolded::Same => Unfolded::To(term),
            other => other,
        }
    }
}

/// Both sides of an operator, by what each of the two is unfolded to. `Memory` says that there is no room for a copy.
pub(crate) fn both<A: Allocator + Copy>(
    alloc: A,
    left: &Term<A>,
    first: Unfolded<A>,
    right: &Term<A>,
    second: Unfolded<A>,
) -> Result<Sides<A>, Memory>
    ensures { (v w : Process) → TellsUnfolded (process_of left.now) v first → TellsUnfolded (process_of right.now) w second →
        IfOk result (TellsSides (process_of left.now) v (process_of right.now) w) }
{
    match (first, second) {
        (Unfolded::Same, Unfolded::Same) => Ok(Sides::Same),
        (Unfolded::To(left), Unfolded::To(right)) => Ok(Sides::To(left, right)),
        (Unfolded::To(left), Unfolded::Same) => Ok(Sides::To(left, right.try_copy(alloc)?)),
        (Unfolded::Same, Unfolded::To(right)) => Ok(Sides::To(left.try_copy(alloc)?, right)),
        (Unfolded::Past, _) | (_, Unfolded::Past) => Ok(Sides::Past),
    }
}
