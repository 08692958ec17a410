//! Whether a target is within the limits, by what its changes measure.

ghost use Rattle.std.specs.Prelude.{◌≡◌, ◌↔◌, ◌≤◌, ◌<◌, ◌+◌, ◌*◌, ◌-◌, ◌^◌, IsTrue, length, get_or};
ghost use Rattle.theory_semantics.specs.Meaning.Limits.{max_size};
ghost use Rattle.csp_rows.specs.Measures.{AreShallow, TellsLimits, size_put_in, size_taken_out};

use crate::changes::Change;
use crate::numbers::PartId;
use crate::part::{Part, depth_of, size_in_hole, size_of};
use std::alloc::Allocator;

/// How many nodes a term has at most.
const MAX_SIZE: u64 = 2000;

/// How deep a term is at most.
const MAX_DEPTH: u64 = 256;

/// How many nodes the new parts have.
fn put_in<A: Allocator>(changes: &[Change], parts: &[Part<A>]) -> u64
    requires { length changes.now < 2 ^ 32 }
    ensures total { result ≡ size_put_in parts.now changes.now }
    ensures bound { result ≤ (2 ^ 32 - 1) * length changes.now }
{
    let mut total = 0u64;
    for change in changes {
        total += u64::from(size_of(parts, change.part));
    }
    total
}

/// How many nodes the parts have whose places they take.
fn taken_out<A: Allocator>(changes: &[Change], row: &[PartId], parts: &[Part<A>]) -> u64
    requires { length changes.now < 2 ^ 32 }
    ensures total { result ≡ size_taken_out parts.now row.now changes.now }
    ensures bound { result ≤ (2 ^ 32 - 1) * length changes.now }
{
    let mut total = 0u64;
    for change in changes {
        total += u64::from(size_in_hole(row, parts, change.hole));
    }
    total
}

/// How many operators stand over a hole.
fn level(levels: &[u32], hole: u32) -> u32
    ensures { result ≡ get_or levels.now hole 0 }
{
    levels.get(hole as usize).copied().unwrap_or(0)
}

/// Whether no new part reaches too deep, with so many operators over each hole.
fn are_shallow<A: Allocator>(changes: &[Change], levels: &[u32], parts: &[Part<A>]) -> bool
    ensures { IsTrue result ↔ AreShallow levels.now parts.now changes.now }
{
    for change in changes {
        let above = u64::from(level(levels, change.hole));
        let depth = u64::from(depth_of(parts, change.part));
        if above + depth > MAX_DEPTH {
            return false;
        }
    }
    true
}

/// Whether a row of so many nodes is still within the limits after the changes. Of a row that is, each part is.
pub fn fits<A: Allocator>(
    size: u32,
    changes: &[Change],
    row: &[PartId],
    levels: &[u32],
    parts: &[Part<A>],
) -> bool
    requires { length changes.now < 2 ^ 32 }
    ensures measured { IsTrue result
        ↔ ((size + size_put_in parts.now changes.now ≤ max_size + size_taken_out parts.now row.now changes.now)
        × AreShallow levels.now parts.now changes.now) }
    ensures limits { TellsLimits size changes.now row.now levels.now parts.now result }
{
    let grown = u64::from(size) + put_in(changes, parts);
    let room = MAX_SIZE + taken_out(changes, row, parts);
    grown <= room && are_shallow(changes, levels, parts)
}
