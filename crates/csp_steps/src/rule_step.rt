//! The steps that rules answer, which may lead past the limits.

ghost use Rattle.std.specs.Prelude.{◌≡◌, ◌++◌, ◌∷◌, [], IfOk, OnOk, Some};
ghost use Rattle.theory_syntax.specs.Process.{Omega};
ghost use Rattle.csp_value.specs.Action.{action_of};
ghost use Rattle.csp_steps.specs.Answering.{answers_of, process_under, target_of, within_limits};

use csp_expression::Binding;
use csp_term::{Action, AllocHandle, Memory, Term, TermFault, TermForm};

/// Where a step of a rule leads.
#[derive(Drop)]
pub enum Target<A: AllocHandle> {
    /// To this term, which is within the limits.
    Within(Term<A>),
    /// Past the limits. No term is built for it, since a rule above may have no use for the step.
    Past,
}

/// A step of a rule: the action, and where it leads.
#[derive(Drop)]
pub struct RuleStep<A: AllocHandle> {
    /// What is done.
    pub action: Action<A>,
    /// Where it leads.
    pub target: Target<A>,
}

impl<A: AllocHandle> Target<A> {
    /// The term with the values put in, if it is then within the limits. `Memory` says that there is no room.
    pub fn put_in(
        alloc: A,
        term: &Term<A>,
        bindings: &[Binding<'_, A>],
    ) -> Result<Target<A>, Memory>
        ensures { IfOk result (λ t. target_of t ≡ within_limits
            (process_under bindings.now term.now)) }
    {
        match term.subst(alloc, bindings) {
            Ok(target) => Ok(Target::Within(target)),
            Err(TermFault::TooLarge) => Ok(Target::Past),
            Err(TermFault::Memory) => Err(Memory),
        }
    }
}

impl<A: AllocHandle> Target<A> {
    /// An equal target, or `Memory` where there is no room for it.
    pub(crate) fn try_copy(&self, alloc: A) -> Result<Target<A>, Memory>
        ensures { IfOk result (λ t. target_of t ≡ target_of self.now) }
    {
        match self {
            Target::Within(term) => Ok(Target::Within(term.try_copy(alloc)?)),
            Target::Past => Ok(Target::Past),
        }
    }

    /// The process that has ended.
    pub(crate) fn omega(alloc: A) -> Result<Target<A>, Memory>
        ensures { IfOk result (λ t. target_of t ≡ Some Omega) }
    {
        Ok(Target::Within(Term::new(alloc, TermForm::Omega)?))
    }
}

/// The one step of a rule that has no other. `Memory` says that there is no room.
pub fn one_step<A: AllocHandle>(
    alloc: A,
    action: Action<A>,
    target: Target<A>,
) -> Result<Vec<RuleStep<A>, A>, Memory>
    ensures { IfOk result (λ steps. answers_of steps ≡ (action_of action, target_of target) ∷ []) }
{
    let mut steps = Vec::new(alloc);
    steps.push(RuleStep { action, target })?;
    Ok(steps)
}

/// Adds the step.
pub(crate) fn add_step<A: AllocHandle>(
    action: Action<A>,
    target: Target<A>,
    steps: &mut Vec<RuleStep<A>, A>,
) -> Result<(), Memory>
    ensures { OnOk result (answers_of steps.new ≡ answers_of steps.old
        ++ (action_of action, target_of target) ∷ []) }
{
    steps.push(RuleStep { action, target })?;
    Ok(())
}
