//! The events of a script, and the shapes of its terms, by numbers.
//!
//! An `Alphabet` has all events of a checked script, in their order and each once, so that an event is known by its
//! place. What the operators of a term have, their sets of events and their renamings, is evaluated once and then told
//! by such numbers: a bit for each event of a set, and the numbers of the images of each event. These are what the
//! definitions give, or the first cause for which they give none.
//!
//! A term is a shape, of the operators that stay where a process inside them takes a step, with a part in each hole.
//! `shape_of` answers the shape of a term by the numbers of an alphabet, with what it measures, so that steps are then
//! put together by numbers; or `None`, exactly where a set or a renaming of it has no value. `parts_of` lends the parts,
//! in the order of their holes.
#![tactic(auto)]

mod alphabet;
mod bits;
mod frames;
mod head;
mod images;
pub mod laws;
mod levels;
mod listing;
mod lists_of_values;
mod measured_shape;
mod numbered_shape;
mod operators;
mod own_size;
mod pair;
mod parts;
mod pieces;
mod places;
mod sides;
mod written_event;

pub use alphabet::Alphabet;
pub use bits::bits_of;
pub use frames::{hidden, renamed};
pub use levels::levels_of;
pub use measured_shape::{MeasuredShape, shape_of};
pub use own_size::own_size_of;
pub use parts::parts_of;
pub use pieces::pieces_of;
pub use places::places_of;
pub use sides::{alphabetised, generalised, interleaved};
