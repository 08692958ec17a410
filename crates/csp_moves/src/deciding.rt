//! Whether a term does a step.

ghost use Rattle.std.specs.Prelude.{◌≡◌, ◌↔◌, Contains, IfOk, IsTrue, Some, map};
ghost use Rattle.csp_value.specs.Action.{action_of};
ghost use Rattle.csp_term.specs.Script.{script_of_parts};
ghost use Rattle.csp_term.specs.Term.{process_of};
ghost use Rattle.csp_steps.specs.Answering.{answered_of, target_of};
ghost use Rattle.csp_moves.specs.Deciding.{IsDecided};
ghost use Rattle.csp_moves.specs.Way.{lent_action};

use crate::way::LentAction;
use csp_steps::{NoValue, RuleStep, Target, steps};
use csp_term::laws::equal_terms;
use csp_term::{Action, AllocHandle, Memory, ScriptParts, Term};
use csp_value::laws::equal_events;

/// Whether the actions are the same.
pub(crate) fn is_action<A: AllocHandle>(action: &Action<A>, other: LentAction<'_, A>) -> bool
    ensures { IsTrue result ↔ (action_of action.now ≡ lent_action other.entry) }
{
    match other {
        LentAction::Tau => match action {
            Action::Tau => true,
            Action::Tick => false,
            Action::Event(_) => false,
        },
        LentAction::Tick => match action {
            Action::Tick => true,
            Action::Tau => false,
            Action::Event(_) => false,
        },
        LentAction::Event(other) => match action {
            Action::Event(event) => equal_events(event, other),
            Action::Tau => false,
            Action::Tick => false,
        },
    }
}

/// Whether the step leads to the term.
pub(crate) fn leads_to<A: AllocHandle>(target: &Target<A>, term: &Term<A>) -> bool
    ensures { IsTrue result ↔ (target_of target.now ≡ Some (process_of term.now)) }
{
    match target {
        Target::Within(other) => equal_terms(other, term),
        Target::Past => false,
    }
}

/// Whether this is the step to the target, by the action.
fn is_step<A: AllocHandle>(step: &RuleStep<A>, action: LentAction<'_, A>, target: &Term<A>) -> bool
    ensures { IsTrue result
        ↔ ((action_of step.now.action ≡ lent_action action.entry)
        × (target_of step.now.target ≡ Some (process_of target.now))) }
{
    is_action(&step.action, action) && leads_to(&step.target, target)
}

/// Whether one of the steps is to the target, by the action.
fn has_step<A: AllocHandle>(
    steps: &[RuleStep<A>],
    action: LentAction<'_, A>,
    target: &Term<A>,
) -> bool
    ensures { IsTrue result ↔ Contains (map answered_of steps.now)
        (lent_action action.entry, Some (process_of target.now)) }
{
    for step in steps {
        if is_step(step, action, target) {
            return true;
        }
    }
    false
}

/// Whether the rules give the term the step. `Memory` says that there is no room to tell.
pub(crate) fn does<A: AllocHandle>(
    alloc: A,
    script: &ScriptParts<A>,
    term: &Term<A>,
    action: LentAction<'_, A>,
    target: &Term<A>,
) -> Result<bool, Memory>
    ensures { IfOk result (IsDecided (script_of_parts script.now) (process_of term.now)
        (lent_action action.entry) (process_of target.now)) }
{
    match steps(alloc, script, &[], term) {
        Ok(steps) => Ok(has_step(&steps, action, target)),
        Err(NoValue::Memory) => Err(Memory),
        Err(NoValue::Cause(_)) => Ok(false),
    }
}
