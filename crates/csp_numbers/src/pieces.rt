//! The bytes of a term round its parts.

ghost use Rattle.std.specs.Prelude.{◌≡◌, IfOk, length};
ghost use Rattle.theory_shapes.specs.Parts.{shape_of};
ghost use Rattle.theory_shapes.specs.Pieces.{pieces};
ghost use Rattle.theory_spelling.specs.Packable.{IsPackable};
ghost use Rattle.csp_term.specs.Term.{process_of};
ghost use Rattle.csp_numbers.specs.Cut.{ArePlacesIn, cut_from};
ghost use Rattle.csp_numbers.specs.Lists.{items_of};

use crate::places::places_of;
use csp_rows::Place;
use csp_spell::pack;
use csp_term::{Memory, Term};
use std::alloc::Allocator;

/// The bytes before, between and behind the places, or `Memory` where there is no room for them.
fn cut<A: Allocator + Copy>(
    alloc: A,
    bytes: &[u8],
    places: &[Place],
) -> Result<Vec<Vec<u8, A>, A>, Memory>
    requires { ArePlacesIn 0 (length bytes.now) places.now }
    ensures { IfOk result (λ cut. items_of cut.items ≡ cut_from 0 bytes.now places.now) }
{
    let mut cut = Vec::new(alloc);
    let mut from = 0usize;
    for place in places {
        let piece = Vec::from_slice(alloc, &bytes[from..place.start])?;
        cut.push(piece)?;
        from = place.end;
    }
    let piece = Vec::from_slice(alloc, &bytes[from..])?;
    cut.push(piece)?;
    Ok(cut)
}

/// The bytes of the term's spelling before, between and behind those of its parts, or `Memory` where there is no room
/// to find them. No list of the term has 2^32 items or more.
pub fn pieces_of<A: Allocator + Copy>(
    alloc: A,
    term: &Term<A>,
) -> Result<Vec<Vec<u8, A>, A>, Memory>
    requires { IsPackable (process_of term.now) }
    ensures { IfOk result (λ cut. items_of cut.items ≡ pieces (shape_of (process_of term.now))) }
{
    let bytes = pack(alloc, term)?;
    let places = places_of(alloc, term)?;
    cut(alloc, &bytes, &places)
}
