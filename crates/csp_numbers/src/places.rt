//! Where the parts of a term are spelled.

ghost use Rattle.std.specs.Prelude.{◌≡◌, ◌++◌, ◌+◌, IfOk, OnOk, length};
ghost use Rattle.csp_rows.specs.Places.{AreRunsOf};
ghost use Rattle.theory_shapes.specs.Parts.{parts_of, shape_of};
ghost use Rattle.theory_shapes.specs.Shape.{holes};
ghost use Rattle.theory_spelling.specs.Packable.{IsPackable};
ghost use Rattle.theory_spelling.specs.Spelling.{spelling};
ghost use Rattle.csp_term.specs.Term.{process_of};
ghost use Rattle.csp_numbers.specs.Placed.{places_in};

use crate::head::Head;
use csp_rows::Place;
use csp_spell::pack;
use csp_term::{Memory, Term};
use std::alloc::Allocator;

/// How many bytes spell the term, or `Memory` where there is no room for them.
fn spelled_length<A: Allocator>(alloc: A, term: &Term<A>) -> Result<usize, Memory>
    requires { IsPackable (process_of term.now) }
    ensures { IfOk result (λ count. count ≡ length (spelling (process_of term.now))) }
{
    let bytes = pack(alloc, term)?;
    Ok(bytes.len())
}

/// Puts the places of the parts of the term at the end, from the left, where the term is spelled in this place. After
/// `Memory` some of them may stand there.
fn push_places<A: Allocator + Copy>(
    alloc: A,
    term: &Term<A>,
    place: Place,
    places: &mut Vec<Place, A>,
) -> Result<(), Memory>
    requires packable { IsPackable (process_of term.now) }
    requires spelled { place.end ≡ place.start + length (spelling (process_of term.now)) }
    ensures { OnOk result (places.new.items ≡ places.old.items
        ++ places_in place.start (process_of term.now)) }
{
    match Head::of(term) {
        Head::Part => Ok(places.push(place)?),
        Head::Composed(_, left, right) => {
            let start = place.start + 1;
            let end = start + spelled_length(alloc, left)?;
            push_places(alloc, left, Place { start, end }, places)?;
            let end = place.end;
            let start = end - spelled_length(alloc, right)?;
            push_places(alloc, right, Place { start, end }, places)
        }
        Head::Framed(_, body) => {
            let start = place.start + 1;
            let end = start + spelled_length(alloc, body)?;
            push_places(alloc, body, Place { start, end }, places)
        }
    }
}

/// Where each part is spelled in the bytes that spell the term, from the left, or `Memory` where there is no room to
/// find that. No list of the term has 2^32 items or more.
pub fn places_of<A: Allocator + Copy>(alloc: A, term: &Term<A>) -> Result<Vec<Place, A>, Memory>
    requires { IsPackable (process_of term.now) }
    ensures count { IfOk result (λ places. length places.items
        ≡ holes (shape_of (process_of term.now))) }
    ensures runs { IfOk result (λ places. AreRunsOf (shape_of (process_of term.now))
        (parts_of (process_of term.now)) places.items) }
{
    let mut places = Vec::new(alloc);
    let start = 0;
    let end = spelled_length(alloc, term)?;
    push_places(alloc, term, Place { start, end }, &mut places)?;
    Ok(places)
}
