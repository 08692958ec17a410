//! Parts that take the places of others, in a pool that many steps share.

ghost use Rattle.std.specs.Prelude.{◌≡◌, ◌++◌, IfOk, OnOk, length};
ghost use Rattle.csp_rows.specs.Runs.{IsJoined, IsRunIn, run_of};

use crate::numbers::PartId;
use std::alloc::{AllocError, Allocator};

/// A part that takes the place of the one in a hole.
#[derive(Clone, Copy)]
pub struct Change {
    /// The number of the hole, from the left.
    pub hole: u32,
    /// The part that takes the place.
    pub part: PartId,
}

/// The changes of a pool from one place on and before another.
#[derive(Clone, Copy)]
pub struct Run {
    /// Where the first of them stands.
    pub from: usize,
    /// Where the one behind the last of them stands.
    pub to: usize,
}

/// Puts the changes of a run at the end of the pool once more.
fn repeat<A: Allocator>(pool: &mut Vec<Change, A>, run: Run) -> Result<(), AllocError>
    requires { IsRunIn (length pool.now.items) run }
    ensures { OnOk result (pool.new.items ≡ pool.old.items ++ run_of pool.old.items run) }
{
    for place in run.from..run.to {
        let change = pool[place];
        pool.push(change)?;
    }
    Ok(())
}

/// The changes of both runs, at the end of the pool.
pub(crate) fn join<A: Allocator>(
    pool: &mut Vec<Change, A>,
    left: Run,
    right: Run,
) -> Result<Run, AllocError>
    requires left { IsRunIn (length pool.now.items) left }
    requires right { IsRunIn (length pool.now.items) right }
    ensures { IfOk result (IsJoined pool.old.items pool.new.items left right) }
{
    let from = pool.len();
    repeat(pool, left)?;
    repeat(pool, right)?;
    let to = pool.len();
    Ok(Run { from, to })
}
