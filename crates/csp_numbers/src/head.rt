//! What stands at the head of a term.

ghost use Rattle.std.specs.Prelude.{◌≡◌};
ghost use Rattle.theory_syntax.specs.Operators.{binary_process};
ghost use Rattle.csp_term.specs.Term.{process_of};
ghost use Rattle.csp_numbers.specs.Heads.{IsHeadOf};

use csp_events::{EventSet, RenamingPair};
use csp_term::{ProcessOperator, Term, TermForm};
use std::alloc::Allocator;

/// What puts two processes side by side.
#[derive(Drop)]
pub enum Composition<'t, A: Allocator> {
    /// Each side does all its events alone.
    Interleaved,
    /// The events of the set are done together, and all others alone.
    Generalised(&'t EventSet<A>),
    /// Each side does the events of its set, and both do those of both sets together.
    Alphabetised(&'t EventSet<A>, &'t EventSet<A>),
}

/// What stands round one process.
#[derive(Drop)]
pub enum Frame<'t, A: Allocator> {
    /// The events of the set are hidden.
    Hidden(&'t EventSet<A>),
    /// Each event is done under its new names.
    Renamed(&'t [RenamingPair<A>]),
}

/// What stands at the head of a term.
#[derive(Drop)]
pub enum Head<'t, A: Allocator> {
    /// No operator that stays: the term is a part.
    Part,
    /// Two processes side by side.
    Composed(Composition<'t, A>, &'t Term<A>, &'t Term<A>),
    /// One process in a frame.
    Framed(Frame<'t, A>, &'t Term<A>),
}

/// The head of an operator of two processes.
fn of_binary<'t, A: Allocator>(
    operator: ProcessOperator,
    left: &'t Term<A>,
    right: &'t Term<A>,
) -> Head<'t, A>
    ensures { IsHeadOf result (binary_process operator (process_of left.now)
        (process_of right.now)) }
{
    match operator {
        ProcessOperator::Interleaving => Head::Composed(Composition::Interleaved, left, right),
        ProcessOperator::ExternalChoice
        | ProcessOperator::InternalChoice
        | ProcessOperator::Sequential
        | ProcessOperator::Interrupt => Head::Part,
    }
}

impl<'t, A: Allocator> Head<'t, A> {
    /// The head of the term.
    pub fn of(term: &'t Term<A>) -> Head<'t, A>
        ensures { IsHeadOf result (process_of term.now) }
    {
        match term.form() {
            TermForm::Stop
            | TermForm::Skip
            | TermForm::Omega
            | TermForm::Call(_, _)
            | TermForm::Prefix(_, _, _)
            | TermForm::Guard(_, _)
            | TermForm::If(_, _, _)
            | TermForm::Replicated(_, _, _, _)
            | TermForm::SlidingChoice(_, _) => Head::Part,
            TermForm::Binary(operator, left, right) => of_binary(*operator, left, right),
            TermForm::GeneralisedParallel(left, shared, right) => {
                Head::Composed(Composition::Generalised(shared), left, right)
            }
            TermForm::AlphabetisedParallel(left, own, other, right) => {
                Head::Composed(Composition::Alphabetised(own, other), left, right)
            }
            TermForm::Hiding(body, hidden) => Head::Framed(Frame::Hidden(hidden), body),
            TermForm::Renaming(body, pairs) => Head::Framed(Frame::Renamed(pairs), body),
        }
    }
}
