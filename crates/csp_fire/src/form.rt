//! The form of a term: what it can do and offer, or why it is stuck.

ghost use Rattle.std.specs.Prelude.{◌≡◌};

use crate::offers::copy_offers;
use csp_term::{Action, AllocHandle, Fault, Memory, Term, TryCopy, copy_all};

/// A step of a term: the action, and the term that it leads to. Steps are ordered by action, then by target.
#[derive(Drop)]
#[derive_where(PartialEq, Eq, PartialOrd, Ord)]
pub struct Step<A: AllocHandle> {
    /// What is done.
    pub action: Action<A>,
    /// The term that it leads to, which is within the limits.
    pub target: Term<A>,
}

/// What one firing shows of a term.
#[derive(Drop)]
pub enum Form<A: AllocHandle> {
    /// All steps, by action and then by target, each once; and the acceptances as rising lists of actions, sorted, each
    /// once.
    Steps(Vec<Step<A>, A>, Vec<Vec<Action<A>, A>, A>),
    /// A rule for the term needs a value that does not exist. This is the first cause.
    Faulty(Fault),
    /// The term is past the limits, or some step leads past them.
    Large,
}

impl<A: AllocHandle> TryCopy<A> for Step<A> {
    ghost use Rattle.csp_fire.specs.Form.{step_of};

    ghost is_copy = { λ step copy. step_of copy ≡ step_of step };

    fn try_copy(&self, alloc: A) -> Result<Step<A>, Memory> {
        let target = self.target.try_copy(alloc)?;
        let action = self.action.try_copy(alloc)?;
        Ok(Step { action, target })
    }
}

impl<A: AllocHandle> TryCopy<A> for Form<A> {
    ghost use Rattle.csp_fire.specs.Form.{form_of};

    ghost is_copy = { λ form copy. form_of copy ≡ form_of form };

    fn try_copy(&self, alloc: A) -> Result<Form<A>, Memory> {
        match self {
            Form::Steps(steps, offers) => {
                let offers = copy_offers(alloc, offers)?;
                let steps = copy_all(alloc, steps)?;
                Ok(Form::Steps(steps, offers))
            }
            Form::Faulty(fault) => Ok(Form::Faulty(*fault)),
            Form::Large => Ok(Form::Large),
        }
    }
}
