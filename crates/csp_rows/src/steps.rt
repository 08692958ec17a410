//! Steps in order, each target once.

ghost use Rattle.std.specs.Prelude.{◌≡◌, ◌≤◌};
ghost use Rattle.std.specs.Ordering.{is_eq};
ghost use Rattle.csp_rows.specs.Numbers.{number_cmp};
ghost use Rattle.csp_rows.specs.Falling.{NeverFall};
ghost use Rattle.csp_rows.specs.ByOrder.{ArePutInOrder, changes_at, step_order};

use crate::changes::Change;
use crate::numbers::{ActionId, PartId};
use crate::order::PartOrder;
use crate::step::Step;
use crate::targets::compare_targets;
use std::alloc::Allocator;
use std::cmp::Ordering;

/// The order of two actions: tau, then tick, then the events by their numbers.
pub(crate) fn compare_actions(action: ActionId, other: ActionId) -> Ordering
    ensures { result ≡ number_cmp action other }
{
    action.cmp(&other)
}

/// The changes of a step, none where it does not tell them.
fn changes_of<'p>(pool: &'p [Change], step: &Step) -> &'p [Change]
    ensures { result.now ≡ changes_at pool.now step.now.changes }
{
    let Some(run) = step.changes else {
        return &[];
    };
    let to = run.to.min(pool.len());
    let from = run.from.min(to);
    &pool[from..to]
}

/// The order of two steps: by action, and then by what they make of the row.
fn compare_steps<O: PartOrder>(
    step: &Step,
    other: &Step,
    pool: &[Change],
    row: &[PartId],
    parts: &O,
) -> Ordering
    ensures { result ≡ step_order (O.order parts.now) row.now pool.now step.now other.now }
{
    match compare_actions(step.action, other.action) {
        Ordering::Equal => {
            let left = changes_of(pool, step);
            let right = changes_of(pool, other);
            compare_targets(left, right, row, parts)
        }
        order => order,
    }
}

/// Puts the steps of a row in order, by action and then by what they make of the row, part against part in the order that
/// is told, and keeps each target once.
pub fn put_in_order<A: Allocator, O: PartOrder>(
    steps: &mut Vec<Step, A>,
    pool: &[Change],
    row: &[PartId],
    parts: &O,
)
    ensures order { ArePutInOrder (O.order parts.now) row.now pool.now steps.old.items
        steps.new.items }
    ensures actions { NeverFall steps.new.items }
{
    steps.sort_unstable_by(
        |step, other| -> Ordering
            ensures { result ≡ step_order (O.order parts.entry.now) row.entry.now pool.entry.now
                step.now other.now }
        { compare_steps(step, other, pool, row, parts) },
    );
    steps.dedup_by(
        |step, last| -> bool
            ensures { (result
                ≡ is_eq (step_order (O.order parts.entry.now) row.entry.now pool.entry.now
                step.entry.now last.entry.now))
                × ((step.exit.now ≡ step.entry.now) × (last.exit.now ≡ last.entry.now)) }
        { compare_steps(step, last, pool, row, parts).is_eq() },
    );
}
