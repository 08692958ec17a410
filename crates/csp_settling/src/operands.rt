//! What operators are unfolded to, by what their operands are.

ghost use Rattle.std.specs.Prelude.{IfOk};
ghost use Rattle.theory_syntax.specs.Operators.{binary_process};
ghost use Rattle.theory_syntax.specs.Process.{AlphabetisedParallel, GeneralisedParallel, Hiding, Process, Renaming, Sequential, SlidingChoice};
ghost use Rattle.csp_events.specs.Events.{event_set_of, renaming_pairs_of};
ghost use Rattle.csp_term.specs.Term.{process_of, process_of_form};
ghost use Rattle.csp_settling.specs.Settling.{TellsSides, TellsUnfolded};

use crate::unfolded::{Sides, Unfolded};
use csp_events::{EventSet, RenamingPair};
use csp_term::{Memory, ProcessOperator, Term, TermForm, copy_all};
use std::alloc::Allocator;

/// The term of the form, as what another is unfolded to.
fn made<A: Allocator + Copy>(alloc: A, form: TermForm<A>) -> Result<Unfolded<A>, Memory>
    ensures { (p : Process) → IfOk result (TellsUnfolded p (process_of_form form)) }
{
    Ok(Unfolded::To(Term::new(alloc, form)?))
}

/// The operator of both sides.
pub(crate) fn in_binary<A: Allocator + Copy>(
    alloc: A,
    operator: ProcessOperator,
    sides: Sides<A>,
) -> Result<Unfolded<A>, Memory>
    ensures { (p v q w : Process) → TellsSides p v q w sides
        → IfOk result (TellsUnfolded (binary_process operator p q) (binary_process operator v w)) }
{
    match sides {
        Sides::Same => Ok(Unfolded::Same),
        Sides::Past => Ok(Unfolded::Past),
        Sides::To(left, right) => made(alloc, TermForm::Binary(operator, left, right)),
    }
}

/// `P [| S |] Q` of both sides.
pub(crate) fn in_generalised<A: Allocator + Copy>(
    alloc: A,
    shared: &EventSet<A>,
    sides: Sides<A>,
) -> Result<Unfolded<A>, Memory>
    ensures { (p v q w : Process) → TellsSides p v q w sides →
        IfOk result (TellsUnfolded (GeneralisedParallel p (event_set_of shared.now) q) (GeneralisedParallel v (event_set_of shared.now) w)) }
{
    match sides {
        Sides::Same => Ok(Unfolded::Same),
        Sides::Past => Ok(Unfolded::Past),
        Sides::To(left, right) => {
            let shared = shared.try_copy(alloc)?;
            made(alloc, TermForm::GeneralisedParallel(left, shared, right))
        }
    }
}

/// `P [S || T] Q` of both sides.
pub(crate) fn in_alphabetised<A: Allocator + Copy>(
    alloc: A,
    own: &EventSet<A>,
    other: &EventSet<A>,
    sides: Sides<A>,
) -> Result<Unfolded<A>, Memory>
    ensures { (p v q w : Process) → TellsSides p v q w sides →
        IfOk result (TellsUnfolded (AlphabetisedParallel p (event_set_of own.now) (event_set_of other.now) q) (AlphabetisedParallel v (event_set_of own.now) (event_set_of other.now) w)) }
{
    match sides {
        Sides::Same => Ok(Unfolded::Same),
        Sides::Past => Ok(Unfolded::Past),
        Sides::To(left, right) => {
            let own = own.try_copy(alloc)?;
            let other = other.try_copy(alloc)?;
            made(
                alloc,
                TermForm::AlphabetisedParallel(left, own, other, right),
            )
        }
    }
}

/// `P ; Q` of its first process.
pub(crate) fn in_sequence<A: Allocator + Copy>(
    alloc: A,
    left: Unfolded<A>,
    right: &Term<A>,
) -> Result<Unfolded<A>, Memory>
    ensures { (p v : Process) → TellsUnfolded p v left
        → IfOk result (TellsUnfolded (Sequential p (process_of right.now))
        (Sequential v (process_of right.now))) }
{
    match left {
        Unfolded::Same => Ok(Unfolded::Same),
        Unfolded::Past => Ok(Unfolded::Past),
        Unfolded::To(left) => {
            let right = right.try_copy(alloc)?;
            made(
                alloc,
                TermForm::Binary(ProcessOperator::Sequential, left, right),
            )
        }
    }
}

/// `P [> Q` of its left side.
pub(crate) fn in_sliding<A: Allocator + Copy>(
    alloc: A,
    left: Unfolded<A>,
    right: &Term<A>,
) -> Result<Unfolded<A>, Memory>
    ensures { (p v : Process) → TellsUnfolded p v left
        → IfOk result (TellsUnfolded (SlidingChoice p (process_of right.now))
        (SlidingChoice v (process_of right.now))) }
{
    match left {
        Unfolded::Same => Ok(Unfolded::Same),
        Unfolded::Past => Ok(Unfolded::Past),
        Unfolded::To(left) => {
            let right = right.try_copy(alloc)?;
            made(alloc, TermForm::SlidingChoice(left, right))
        }
    }
}

/// `P \ S` of its process.
pub(crate) fn in_hiding<A: Allocator + Copy>(
    alloc: A,
    body: Unfolded<A>,
    hidden: &EventSet<A>,
) -> Result<Unfolded<A>, Memory>
    ensures { (p v : Process) → TellsUnfolded p v body
        → IfOk result (TellsUnfolded (Hiding p (event_set_of hidden.now))
        (Hiding v (event_set_of hidden.now))) }
{
    match body {
        Unfolded::Same => Ok(Unfolded::Same),
        Unfolded::Past => Ok(Unfolded::Past),
        Unfolded::To(body) => {
            let hidden = hidden.try_copy(alloc)?;
            made(alloc, TermForm::Hiding(body, hidden))
        }
    }
}

/// A renaming of its process.
pub(crate) fn in_renaming<A: Allocator + Copy>(
    alloc: A,
    body: Unfolded<A>,
    pairs: &[RenamingPair<A>],
) -> Result<Unfolded<A>, Memory>
    ensures { (p v : Process) → TellsUnfolded p v body
        → IfOk result (TellsUnfolded (Renaming p (renaming_pairs_of pairs.now))
        (Renaming v (renaming_pairs_of pairs.now))) }
{
    match body {
        Unfolded::Same => Ok(Unfolded::Same),
        Unfolded::Past => Ok(Unfolded::Past),
        Unfolded::To(body) => {
            let pairs = copy_all(alloc, pairs)?;
            made(alloc, TermForm::Renaming(body, pairs))
        }
    }
}
