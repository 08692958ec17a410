//! What of a term stands beside other parts.

ghost use Rattle.std.specs.Prelude.{◌≡◌};
ghost use Rattle.theory_syntax.specs.Operators.{binary_process};
ghost use Rattle.csp_term.specs.Term.{process_of};
ghost use Rattle.counterexample.specs.Waiting.{standing, standing_of};

use csp_term::{AllocHandle, ProcessOperator, Term, TermForm};

/// What of a term stands beside other parts.
#[derive(Clone, Copy)]
pub(crate) enum Standing<'t, A: AllocHandle> {
    /// The two sides of a parallel operator.
    Beside(&'t Term<A>, &'t Term<A>),
    /// What is below hiding or renaming.
    Inside(&'t Term<A>),
    /// The term is one part.
    Alone,
}

/// What of the term stands beside other parts.
pub(crate) fn standing_in<A: AllocHandle>(term: &Term<A>) -> Standing<'_, A>
    ensures { standing_of result ≡ standing (process_of term.now) }
{
    match term.form() {
        TermForm::Binary(operator, left, right) => standing_by(*operator, left, right),
        TermForm::GeneralisedParallel(left, _, right) => Standing::Beside(left, right),
        TermForm::AlphabetisedParallel(left, _, _, right) => Standing::Beside(left, right),
        TermForm::Hiding(body, _) => Standing::Inside(body),
        TermForm::Renaming(body, _) => Standing::Inside(body),
        TermForm::Stop => Standing::Alone,
        TermForm::Skip => Standing::Alone,
        TermForm::Omega => Standing::Alone,
        TermForm::Call(_, _) => Standing::Alone,
        TermForm::Prefix(_, _, _) => Standing::Alone,
        TermForm::Guard(_, _) => Standing::Alone,
        TermForm::If(_, _, _) => Standing::Alone,
        TermForm::Replicated(_, _, _, _) => Standing::Alone,
        TermForm::SlidingChoice(_, _) => Standing::Alone,
    }
}

fn standing_by<'t, A: AllocHandle>(
    operator: ProcessOperator,
    left: &'t Term<A>,
    right: &'t Term<A>,
) -> Standing<'t, A>
    ensures { standing_of result
        ≡ standing (binary_process operator (process_of left.now) (process_of right.now)) }
{
    match operator {
        ProcessOperator::Interleaving => Standing::Beside(left, right),
        ProcessOperator::ExternalChoice => Standing::Alone,
        ProcessOperator::InternalChoice => Standing::Alone,
        ProcessOperator::Sequential => Standing::Alone,
        ProcessOperator::Interrupt => Standing::Alone,
    }
}
