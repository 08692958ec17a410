//! What the operators of a term measure, without its parts.

ghost use Rattle.std.specs.Prelude.{◌≡◌, ◌≤◌, ◌-◌, IsTrue};
ghost use Rattle.std.specs.Option.{SomeIff};
ghost use Rattle.theory_semantics.specs.Meaning.Limits.{fits};
ghost use Rattle.theory_shapes.specs.Measures.{composition_size, frame_size, own_size};
ghost use Rattle.theory_shapes.specs.Parts.{shape_of};
ghost use Rattle.csp_term.specs.Term.{process_of};
ghost use Rattle.csp_numbers.specs.Heads.{composition_of, frame_of};

use crate::head::{Composition, Frame, Head};
use csp_events::room_left_by_pairs;
use csp_term::Term;
use std::alloc::Allocator;

// The most nodes of a term within the limits.
const MAX_SIZE: u32 = 2000;

impl<A: Allocator> Composition<'_, A> {
    /// What its sets leave of the room for nodes, `None` where they have more.
    fn room_left(&self, room: u32) -> Option<u32>
        ensures { SomeIff result (composition_size (composition_of self.now) ≤ room)
            (room - composition_size (composition_of self.now)) }
    {
        match self {
            Composition::Interleaved => Some(room),
            Composition::Generalised(shared) => shared.room_left(room),
            Composition::Alphabetised(own, other) => other.room_left(own.room_left(room)?),
        }
    }
}

impl<A: Allocator> Frame<'_, A> {
    /// What its set or its pairs leave of the room for nodes, `None` where they have more.
    fn room_left(&self, room: u32) -> Option<u32>
        ensures { SomeIff result (frame_size (frame_of self.now) ≤ room)
            (room - frame_size (frame_of self.now)) }
    {
        match self {
            Frame::Hidden(hidden) => hidden.room_left(room),
            Frame::Renamed(pairs) => room_left_by_pairs(pairs, room),
        }
    }
}

/// What the operators of the term leave of the room for nodes, `None` where they have more.
fn room_left<A: Allocator>(term: &Term<A>, room: u32) -> Option<u32>
    ensures { SomeIff result (own_size (shape_of (process_of term.now)) ≤ room)
        (room - own_size (shape_of (process_of term.now))) }
{
    match Head::of(term) {
        Head::Part => Some(room),
        Head::Composed(composition, left, right) => {
            let rest = composition.room_left(room.checked_sub(1)?)?;
            room_left(right, room_left(left, rest)?)
        }
        Head::Framed(frame, body) => {
            let rest = frame.room_left(room.checked_sub(1)?)?;
            room_left(body, rest)
        }
    }
}

/// How many nodes a term within the limits has that are not those of its parts.
pub fn own_size_of<A: Allocator>(term: &Term<A>) -> u32
    requires { IsTrue (fits (process_of term.now)) }
    ensures { result ≡ own_size (shape_of (process_of term.now)) }
{
    match room_left(term, MAX_SIZE) {
        Some(rest) => MAX_SIZE - rest,
        None => MAX_SIZE,
    }
}
