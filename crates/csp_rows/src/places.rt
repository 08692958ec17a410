//! The bytes of a target, copied from those of a row.

ghost use Rattle.std.specs.Prelude.{◌≡◌, IfOk, length};
ghost use Rattle.theory_shapes.specs.Edits.{edited};
ghost use Rattle.csp_rows.specs.Places.{IsTargetOf, RiseUpTo, edits_of, place_at};

use crate::changes::Change;
use crate::part::{Part, spelling};
use std::alloc::{AllocError, Allocator};

/// Where a part is spelled in the bytes of a row.
#[derive(Clone, Copy)]
pub struct Place {
    /// Where its first byte stands.
    pub start: usize,
    /// Where the byte behind its last one stands.
    pub end: usize,
}

/// The place of a hole, the beginning where there is no such hole.
fn place_of(places: &[Place], hole: u32) -> Place
    ensures { result ≡ place_at places.now hole }
{
    match places.get(hole as usize) {
        Some(place) => *place,
        None => {
            let start = 0;
            let end = 0;
            Place { start, end }
        }
    }
}

/// How many bytes a target takes. It may tell another number where the places do not stand one behind the other.
fn room_for<A: Allocator>(
    bytes: &[u8],
    places: &[Place],
    changes: &[Change],
    parts: &[Part<A>],
) -> usize {
    let mut room = bytes.len();
    for change in changes {
        let place = place_of(places, change.hole);
        let new = spelling(parts, change.part).len();
        room = room
            .saturating_add(new)
            .saturating_sub(place.end.saturating_sub(place.start));
    }
    room
}

/// The bytes of a row with the spellings of new parts in the places of their holes.
pub fn target<A: Allocator>(
    alloc: A,
    bytes: &[u8],
    places: &[Place],
    changes: &[Change],
    parts: &[Part<A>],
) -> Result<Vec<u8, A>, AllocError>
    requires { RiseUpTo 0 (length bytes.now) (edits_of places.now parts.now changes.now) }
    ensures edited { IfOk result (λ target. target.items
        ≡ edited bytes.now 0 (edits_of places.now parts.now changes.now)) }
    ensures spelled { IfOk result (λ target. IsTargetOf bytes.now places.now changes.now parts.now
        target.items) }
{
    let mut target = Vec::with_capacity(alloc, room_for(bytes, places, changes, parts))?;
    let mut copied = 0usize;
    for change in changes {
        let place = place_of(places, change.hole);
        target.extend_from_slice(&bytes[copied..place.start])?;
        target.extend_from_slice(spelling(parts, change.part))?;
        copied = place.end;
    }
    target.extend_from_slice(&bytes[copied..])?;
    Ok(target)
}
