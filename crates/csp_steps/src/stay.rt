//! What a side does alone that stays in the composition: tau, and events that it is free to do. What follows its tick
//! is the operator's own.

ghost use Rattle.std.specs.Prelude.{◌≡◌, ◌++◌, ◌∷◌, [], IfOk, OnOk};
ghost use Rattle.csp_value.specs.Action.{action_of};
ghost use Rattle.csp_steps.specs.Answering.{answered_of, answers_of, target_of};
ghost use Rattle.csp_steps.specs.Composing.{around_of, each_answer, one_answer};
ghost use Rattle.csp_steps.specs.Sharing.{IsSearchable, alone_answer, ended_by};

use crate::context::Context;
use crate::rule_step::{RuleStep, Target, add_step};
use crate::sharing::Sharing;
use csp_term::{Action, AllocHandle, Memory};

/// What becomes of a side's tick.
#[derive(Clone, Copy)]
pub(crate) enum AfterTick {
    /// It is hidden, and leads to what the context says.
    Next,
    /// All ends with it.
    All,
    /// It is hidden, and the other side goes on beside what has ended.
    Beside,
}

fn after_tick<A: AllocHandle>(
    alloc: A,
    context: Context<'_, A>,
    after: AfterTick,
) -> Result<RuleStep<A>, Memory>
    ensures { IfOk result (λ s. answered_of s ∷ [] ≡ ended_by after context.entry) }
{
    match after {
        AfterTick::Next => {
            let target = context.next.try_copy(alloc)?;
            let action = Action::Tau;
            Ok(RuleStep { action, target })
        }
        AfterTick::All => {
            let target = Target::omega(alloc)?;
            let action = Action::Tick;
            Ok(RuleStep { action, target })
        }
        AfterTick::Beside => {
            let target = context.around_omega(alloc)?;
            let action = Action::Tau;
            Ok(RuleStep { action, target })
        }
    }
}

/// Adds what follows the tick of the side that moves.
fn add_end<A: AllocHandle>(
    alloc: A,
    context: Context<'_, A>,
    after: AfterTick,
    steps: &mut Vec<RuleStep<A>, A>,
) -> Result<(), Memory>
    ensures { OnOk result (answers_of steps.new ≡ answers_of steps.old
        ++ ended_by after context.entry) }
{
    steps.push(after_tick(alloc, context, after)?)?;
    Ok(())
}

/// Adds the step of the side that moves, which stays in the composition.
fn add_around<A: AllocHandle>(
    alloc: A,
    context: Context<'_, A>,
    action: Action<A>,
    target: Target<A>,
    steps: &mut Vec<RuleStep<A>, A>,
) -> Result<(), Memory>
    ensures { OnOk result (answers_of steps.new ≡ answers_of steps.old
        ++ (action_of action, around_of context.entry (target_of target)) ∷ []) }
{
    let target = context.around(alloc, target)?;
    add_step(action, target, steps)
}

/// Adds the step that the composition does by one of the side that moves, where the side does that alone.
fn add_one<A: AllocHandle>(
    alloc: A,
    context: Context<'_, A>,
    sharing: &Sharing<A>,
    after: AfterTick,
    step: RuleStep<A>,
    steps: &mut Vec<RuleStep<A>, A>,
) -> Result<(), Memory>
    requires { IsSearchable sharing.now }
    ensures { OnOk result (answers_of steps.new ≡ answers_of steps.old
        ++ one_answer (alone_answer sharing.now after context.entry) step) }
{
    let RuleStep { action, target } = step;
    match action {
        Action::Tick => add_end(alloc, context, after, steps),
        Action::Tau => add_around(alloc, context, Action::Tau, target, steps),
        Action::Event(event) => {
            if sharing.is_free(context.hand, &event) {
                add_around(alloc, context, Action::Event(event), target, steps)
            } else {
                Ok(())
            }
        }
    }
}

/// Adds the steps of the side that moves.
pub(crate) fn add<A: AllocHandle>(
    alloc: A,
    context: Context<'_, A>,
    sharing: &Sharing<A>,
    after: AfterTick,
    moves: Vec<RuleStep<A>, A>,
    steps: &mut Vec<RuleStep<A>, A>,
) -> Result<(), Memory>
    requires { IsSearchable sharing.now }
    ensures { OnOk result (answers_of steps.new ≡ answers_of steps.old
        ++ each_answer (alone_answer sharing.now after context.entry) (answers_of moves)) }
{
    for step in moves {
        add_one(alloc, context, sharing, after, step, steps)?;
    }
    Ok(())
}
