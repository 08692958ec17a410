//! The order of what changes make of a row of parts.

ghost use Rattle.std.specs.Prelude.{◌≡◌, ◌<◌, ◌≤◌, ℕ, cond, get_or, length, nat_eq};
ghost use Rattle.std.specs.List.{AllByRecursion};
ghost use Rattle.csp_rows.specs.declared.numbers.PartId as part_id;
ghost use Rattle.csp_rows.specs.ByOrder.{changes_cmp, row_after};

use crate::changes::Change;
use crate::numbers::PartId;
use crate::order::PartOrder;
use std::cmp::Ordering;

/// The part in a hole after one more change.
fn replaced(change: Change, hole: usize, part: PartId) -> PartId
    ensures { result ≡ cond (nat_eq change.hole hole) change.part part }
{
    if change.hole as usize == hole {
        change.part
    } else {
        part
    }
}

/// The part in a hole of the row after changes.
fn part_after(changes: &[Change], row: &[PartId], hole: usize) -> PartId
    requires { hole < length row.now }
    ensures { (d : part_id.PartId) → result ≡ get_or (row_after changes.now row.now) hole d }
{
    let mut part = row[hole];
    for change in changes {
        part = replaced(*change, hole, part);
    }
    part
}

/// The order of the parts in a hole after the one and after the other changes.
fn compare_in_hole<O: PartOrder>(
    left: &[Change],
    right: &[Change],
    row: &[PartId],
    parts: &O,
    hole: usize,
) -> Ordering
    requires { hole < length row.now }
    ensures { (d : part_id.PartId) → result ≡ O.order parts.now
        (get_or (row_after left.now row.now) hole d) (get_or (row_after right.now row.now) hole d) }
{
    let left = part_after(left, row, hole);
    let right = part_after(right, row, hole);
    parts.compare(left, right)
}

/// The hole of a change, if it stands from the first place on and before the second, or else the second.
fn nearer(hole: usize, from: usize, next: usize) -> usize
    ensures before { result ≤ next }
    ensures behind { from ≤ next → from ≤ result }
    ensures least { from ≤ hole → result ≤ hole }
{
    if from <= hole && hole < next {
        hole
    } else {
        next
    }
}

/// The first hole from a place on that is changed, or the end where none before that is.
fn next_changed(changes: &[Change], from: usize, end: usize) -> usize
    ensures before { result ≤ end }
    ensures behind { from ≤ end → from ≤ result }
    ensures unchanged { (i : ℕ) → from ≤ i → i < result
        → AllByRecursion (λ c. c.hole ≡ i → ⊥) changes.now }
{
    let mut next = end;
    for change in changes {
        next = nearer(change.hole as usize, from, next);
    }
    next
}

/// The order of what two lists of changes make of a row, part against part from the left.
pub(crate) fn compare_targets<O: PartOrder>(
    left: &[Change],
    right: &[Change],
    row: &[PartId],
    parts: &O,
) -> Ordering
    ensures { result ≡ changes_cmp (O.order parts.now) row.now left.now right.now }
{
    let end = row.len();
    let mut hole = next_changed(left, 0, next_changed(right, 0, end));
    while hole < end {
        let order = compare_in_hole(left, right, row, parts, hole);
        if order.is_ne() {
            return order;
        }
        let from = hole + 1;
        hole = next_changed(left, from, next_changed(right, from, end));
    }
    Ordering::Equal
}
