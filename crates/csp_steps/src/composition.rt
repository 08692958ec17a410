//! What operators make of two processes, and of one.

ghost use Rattle.std.specs.Prelude.{◌≡◌, IfOk};
ghost use Rattle.csp_term.specs.Term.{process_of, process_of_form};
ghost use Rattle.csp_steps.specs.Answering.{target_of, within_limits};
ghost use Rattle.csp_steps.specs.Composing.{composition_of, frame_of, under_both, under_limits};

use crate::rule_step::Target;
use csp_events::{EventSet, RenamingPair};
use csp_term::{AllocHandle, Memory, ProcessOperator, Term, TermForm, copy_all};

/// An operator of two processes, with its sets of events.
#[derive(Drop)]
pub(crate) enum Composition<A: AllocHandle> {
    Operator(ProcessOperator),
    Generalised(EventSet<A>),
    Alphabetised(EventSet<A>, EventSet<A>),
    Sliding,
}

/// An operator of one process, with its set of events or its pairs.
#[derive(Drop)]
pub(crate) enum Frame<A: AllocHandle> {
    Hiding(EventSet<A>),
    Renaming(Vec<RenamingPair<A>, A>),
}

/// The term, if it is within the limits.
fn within<A: AllocHandle>(term: Term<A>) -> Target<A>
    ensures { target_of result ≡ within_limits (process_of term) }
{
    if term.fits() {
        Target::Within(term)
    } else {
        Target::Past
    }
}

impl<A: AllocHandle> Composition<A> {
    fn form(&self, alloc: A, left: Term<A>, right: Term<A>) -> Result<TermForm<A>, Memory>
        ensures { IfOk result (λ form. process_of_form form
            ≡ composition_of self.now (process_of left) (process_of right)) }
    {
        match self {
            Composition::Operator(operator) => Ok(TermForm::Binary(*operator, left, right)),
            Composition::Generalised(shared) => {
                let shared = shared.try_copy(alloc)?;
                Ok(TermForm::GeneralisedParallel(left, shared, right))
            }
            Composition::Alphabetised(own, other) => {
                let own = own.try_copy(alloc)?;
                let other = other.try_copy(alloc)?;
                Ok(TermForm::AlphabetisedParallel(left, own, other, right))
            }
            Composition::Sliding => Ok(TermForm::SlidingChoice(left, right)),
        }
    }

    /// What the operator makes of the two, if it is within the limits. It is not where one of them is not.
    pub(crate) fn of(
        &self,
        alloc: A,
        left: Target<A>,
        right: Target<A>,
    ) -> Result<Target<A>, Memory>
        ensures { IfOk result (λ t. target_of t ≡ under_both (composition_of self.now)
            (target_of left) (target_of right)) }
    {
        let Target::Within(left) = left else {
            return Ok(Target::Past);
        };
        let Target::Within(right) = right else {
            return Ok(Target::Past);
        };
        let form = self.form(alloc, left, right)?;
        Ok(within(Term::new(alloc, form)?))
    }
}

impl<A: AllocHandle> Frame<A> {
    fn form(&self, alloc: A, body: Term<A>) -> Result<TermForm<A>, Memory>
        ensures { IfOk result (λ form. process_of_form form ≡ frame_of self.now (process_of body)) }
    {
        match self {
            Frame::Hiding(hidden) => Ok(TermForm::Hiding(body, hidden.try_copy(alloc)?)),
            Frame::Renaming(pairs) => Ok(TermForm::Renaming(body, copy_all(alloc, pairs)?)),
        }
    }

    /// What the operator makes of the process, if it is within the limits. It is not where the process is not.
    pub(crate) fn of(&self, alloc: A, body: Target<A>) -> Result<Target<A>, Memory>
        ensures { IfOk result (λ t. target_of t ≡ under_limits (frame_of self.now)
            (target_of body)) }
    {
        let Target::Within(body) = body else {
            return Ok(Target::Past);
        };
        let form = self.form(alloc, body)?;
        Ok(within(Term::new(alloc, form)?))
    }
}
