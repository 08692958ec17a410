//! The actions of steps in order.

ghost use Rattle.std.specs.Prelude.{◌≡◌, IfOk, map};
ghost use Rattle.std.specs.Ordering.{is_eq};
ghost use Rattle.csp_rows.specs.InOrder.{AreActionsOf};
ghost use Rattle.csp_rows.specs.Numbers.{number_cmp};
ghost use Rattle.csp_rows.specs.Falling.{NeverFall};

use crate::numbers::ActionId;
use crate::step::Step;
use crate::steps::compare_actions;
use std::alloc::{AllocError, Allocator};

/// The action of each step.
fn each_action<A: Allocator>(alloc: A, steps: &[Step]) -> Result<Vec<ActionId, A>, AllocError>
    ensures { IfOk result (λ actions. actions.items ≡ map (λ s. s.action) steps.now) }
{
    let mut actions = Vec::with_capacity(alloc, steps.len())?;
    for step in steps {
        actions.push(step.action)?;
    }
    Ok(actions)
}

/// The actions of steps that stand in the order of these, each once.
pub fn actions_of<A: Allocator>(alloc: A, steps: &[Step]) -> Result<Vec<ActionId, A>, AllocError>
    ensures { IfOk result (λ actions. NeverFall steps.now → AreActionsOf steps.now actions.items) }
{
    let mut actions = each_action(alloc, steps)?;
    actions.dedup_by(
        |action, last| -> bool
            ensures { (result ≡ is_eq (number_cmp action.entry.now last.entry.now))
                × ((action.exit.now ≡ action.entry.now) × (last.exit.now ≡ last.entry.now)) }
        { compare_actions(*action, *last).is_eq() },
    );
    Ok(actions)
}
