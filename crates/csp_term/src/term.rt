//! Terms of processes.

ghost use Rattle.std.specs.Prelude.{◌≡◌, ◌↔◌, IfOk, IsTrue};
ghost use Rattle.theory_syntax.specs.Process.{Omega};
ghost use Rattle.csp_term.specs.Term.{process_of, process_of_form};

use crate::field::Field;
use crate::name::EquationId;
use csp_events::{EventSet, RenamingPair};
use csp_expression::{Expr, Name};
use csp_value::{ChannelId, Memory};
use std::alloc::Allocator;
use theory_syntax::{ProcessOperator, ReplicatedOperator};

/// A process as it is written. It holds its form behind a pointer, so that a term is moved and dropped alike whatever
/// its form is. The order is that of the forms.
#[cycle(term)]
#[derive(Drop)]
#[derive_where(PartialEq, Eq, PartialOrd, Ord, Hash)]
pub struct Term<A: Allocator> {
    pub(crate) form: Box<TermForm<A>, A>,
}

/// What a process is at its head, with its parts. The order is that of the forms, then of the parts in turn.
#[cycle(term)]
#[derive(Drop)]
#[derive_where(PartialEq, Eq, PartialOrd, Ord, Hash)]
pub enum TermForm<A: Allocator> {
    /// `STOP`, which does nothing.
    Stop,
    /// `SKIP`, which ends.
    Skip,
    /// The process that has ended, which no script can write.
    Omega,
    /// `P(e, ..)`, the body of the equation with the values of the arguments.
    Call(EquationId, Vec<Expr<A>, A>),
    /// `c!e?x -> P`, which does an event of the channel and goes on as the body.
    Prefix(ChannelId, Vec<Field<A>, A>, Term<A>),
    /// `e & P`, which is the body where the condition is true, and else does nothing.
    Guard(Expr<A>, Term<A>),
    /// `if e then P else Q`
    If(Expr<A>, Term<A>, Term<A>),
    /// An operator with its left and its right operand.
    Binary(ProcessOperator, Term<A>, Term<A>),
    /// `P [| S |] Q`, which do the events of the set together, and all others alone.
    GeneralisedParallel(Term<A>, EventSet<A>, Term<A>),
    /// `P [S || T] Q`, of which each does the events of its set, and both do those of both sets together.
    AlphabetisedParallel(Term<A>, EventSet<A>, EventSet<A>, Term<A>),
    /// `P \ S`, where no one sees the events of the set.
    Hiding(Term<A>, EventSet<A>),
    /// `P [[from <- to, ..]]`, which does what a pair names under its new name.
    Renaming(Term<A>, Vec<RenamingPair<A>, A>),
    /// An operator with the name that stands for each value of the set in turn, and the process for it.
    Replicated(ReplicatedOperator, Name, Expr<A>, Term<A>),
    /// `P [> Q`, which does as `P` or becomes `Q` by itself, until the first event of `P`.
    SlidingChoice(Term<A>, Term<A>),
}

impl<A: Allocator> Term<A> {
    /// The term of the form, or `Memory` where there is no room for it.
    pub fn new(alloc: A, form: TermForm<A>) -> Result<Term<A>, Memory>
        ensures { IfOk result (λ term. process_of term ≡ process_of_form form) }
    {
        let form = Box::new(alloc, form)?;
        Ok(Term { form })
    }

    /// The form of the term.
    pub fn form(&self) -> &TermForm<A>
        ensures { process_of_form result.now ≡ process_of self.now }
    {
        &self.form
    }

    /// Whether the process has ended.
    pub fn is_omega(&self) -> bool
        ensures { IsTrue result ↔ (process_of self.now ≡ Omega) }
    {
        matches!(self.form(), TermForm::Omega)
    }
}

impl<A: Allocator + Copy> Term<A> {
    /// An equal term in the given allocator, or `Memory` where that has no room: the term with no value put in.
    #[tactic(auto, using(theory_semantics::proofs::Putting::put_nothing))]
    pub fn try_copy(&self, alloc: A) -> Result<Term<A>, Memory>
        ensures { IfOk result (λ copy. process_of copy ≡ process_of self.now) }
    {
        self.put_in(alloc, &[])
    }
}
