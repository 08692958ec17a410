//! The steps of the part in a hole, as changes of that hole.

ghost use Rattle.std.specs.Prelude.{IfOk, OnOk};
ghost use Rattle.csp_rows.specs.Stacks.{IsOnTop};
ghost use Rattle.csp_rows.specs.Runs.{side_of};
ghost use Rattle.csp_rows.specs.Holes.{AreKnownIn, IsAdded, IsHoleSide};
ghost use Rattle.csp_rows.specs.Rows.{steps_at};

use crate::changes::{Change, Run};
use crate::composed::End;
use crate::numbers::PartId;
use crate::part::{Part, has_ended, known_steps};
use crate::step::{PartStep, Step};
use std::alloc::{AllocError, Allocator};

/// A change at the end of the pool.
fn add_change<A: Allocator>(pool: &mut Vec<Change, A>, change: Change) -> Result<Run, AllocError>
    ensures { IfOk result (IsAdded change pool.old.items pool.new.items) }
{
    let from = pool.len();
    pool.push(change)?;
    let to = pool.len();
    Ok(Run { from, to })
}

/// Adds the steps of a part, as changes of its hole.
fn add_known<A: Allocator>(
    pool: &mut Vec<Change, A>,
    steps: &mut Vec<Step, A>,
    hole: u32,
    known: &[PartStep],
) -> Result<(), AllocError>
    ensures { OnOk result (IsOnTop steps.old.items
        (AreKnownIn hole known.now pool.old.items pool.new.items) steps.new.items) }
{
    for step in known {
        let part = step.target;
        let changes = Some(add_change(pool, Change { hole, part })?);
        let action = step.action;
        steps.push(Step { action, changes })?;
    }
    Ok(())
}

/// Puts the steps of a hole on top, and tells its end: where its part ends, it becomes the process that has ended.
pub(crate) fn add_hole<A: Allocator>(
    hole: u32,
    row: &[PartId],
    parts: &[Part<A>],
    pool: &mut Vec<Change, A>,
    steps: &mut Vec<Step, A>,
) -> Result<End, AllocError>
    ensures { IfOk result (λ end. IsOnTop steps.old.items
        (λ top. IsHoleSide hole row.now (steps_at parts.now row.now hole)
        pool.old.items pool.new.items (side_of top end)) steps.new.items) }
{
    add_known(pool, steps, hole, known_steps(row, parts, hole))?;
    let part = PartId::OMEGA;
    let ending = Some(add_change(pool, Change { hole, part })?);
    let has_ended = has_ended(row, hole);
    Ok(End { ending, has_ended })
}
