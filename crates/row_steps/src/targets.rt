//! What a step leads to, as a row of numbers.

ghost use Rattle.std.specs.Prelude.{◌≡◌, ◌<◌, ◌++◌, OnErr, OnOk, length};
ghost use Rattle.std.specs.List.{AllByRecursion};
ghost use Rattle.csp_rows.specs.ByOrder.{row_after};

use csp_rows::{Change, PartId};
use std::alloc::{AllocError, Allocator};

/// Puts the parts of the row after changes behind others. Where memory is refused, nothing is changed.
pub fn push_target<A: Allocator>(
    row: &[PartId],
    changes: &[Change],
    parts: &mut Vec<PartId, A>,
) -> Result<(), AllocError>
    requires { AllByRecursion (λ c. c.hole < length row.now) changes.now }
    ensures pushed { OnOk result (parts.new.items
        ≡ parts.old.items ++ row_after changes.now row.now) }
    ensures err { OnErr result (parts.new.items ≡ parts.old.items) }
{
    let from = parts.len();
    parts.extend_from_slice(row)?;
    for change in changes {
        parts[from + change.hole as usize] = change.part;
    }
    Ok(())
}
