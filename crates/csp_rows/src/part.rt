//! Parts that are known by their numbers.

ghost use Rattle.std.specs.Prelude.{◌≡◌};
ghost use Rattle.csp_rows.specs.Rows.{depth_at, ended_at, size_at, size_in, spelling_at, steps_at};

use crate::numbers::PartId;
use crate::step::PartStep;
use std::alloc::Allocator;

/// What is kept of a part.
#[derive(Drop)]
pub struct Part<A: Allocator> {
    /// The bytes that spell it.
    pub spelling: Vec<u8, A>,
    /// How many nodes it has.
    pub size: u32,
    /// How deep it is.
    pub depth: u32,
    /// Its steps, `None` where it has not been fired, or where it is faulty or large.
    pub steps: Option<Vec<PartStep, A>>,
}

/// The steps that are kept of the part in a hole, none where there is no such part.
pub(crate) fn known_steps<'p, A: Allocator>(
    row: &[PartId],
    parts: &'p [Part<A>],
    hole: u32,
) -> &'p [PartStep]
    ensures { result.now ≡ steps_at parts.now row.now hole }
{
    let Some(number) = row.get(hole as usize) else {
        return &[];
    };
    let Some(part) = parts.get(number.0 as usize) else {
        return &[];
    };
    match &part.steps {
        Some(steps) => steps.as_slice(),
        None => &[],
    }
}

/// Whether the part in a hole has ended.
pub(crate) fn has_ended(row: &[PartId], hole: u32) -> bool
    ensures { result ≡ ended_at row.now hole }
{
    match row.get(hole as usize) {
        Some(number) => number.0 == PartId::OMEGA.0,
        None => false,
    }
}

/// The bytes that spell a part, none where there is no such part.
pub(crate) fn spelling<A: Allocator>(parts: &[Part<A>], number: PartId) -> &[u8]
    ensures { result.now ≡ spelling_at parts.now number.0 }
{
    match parts.get(number.0 as usize) {
        Some(part) => part.spelling.as_slice(),
        None => &[],
    }
}

/// How many nodes a part has, none where there is no such part.
pub(crate) fn size_of<A: Allocator>(parts: &[Part<A>], number: PartId) -> u32
    ensures { result ≡ size_at parts.now number.0 }
{
    match parts.get(number.0 as usize) {
        Some(part) => part.size,
        None => 0,
    }
}

/// How many nodes the part in a hole has, none where there is no such part.
pub(crate) fn size_in_hole<A: Allocator>(row: &[PartId], parts: &[Part<A>], hole: u32) -> u32
    ensures { result ≡ size_in parts.now row.now hole }
{
    match row.get(hole as usize) {
        Some(number) => size_of(parts, *number),
        None => 0,
    }
}

/// How deep a part is, 0 where there is no such part.
pub(crate) fn depth_of<A: Allocator>(parts: &[Part<A>], number: PartId) -> u32
    ensures { result ≡ depth_at parts.now number.0 }
{
    match parts.get(number.0 as usize) {
        Some(part) => part.depth,
        None => 0,
    }
}
