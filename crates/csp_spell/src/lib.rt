//! Terms as bytes, and back.
//!
//! `pack` writes the one spelling of a term that the definitions of `theory_spelling` give, and `unpack` reads it. Bytes are
//! read exactly where they are the spelling of a term: nothing may stand behind it, no list may claim more than there is,
//! and the members of a set rise. Writing appends to a vector that is lent, so that spellings can stand one behind the
//! other. Both call themselves as deep as the term nests.
#![tactic(auto)]

mod events;
mod expressions;
mod fault;
mod fields;
pub mod laws;
mod numbers;
mod packing;
mod read_events;
mod read_expressions;
mod read_fields;
mod read_numbers;
mod read_terms;
mod read_values;
mod tags;
mod terms;
mod unpacking;
mod values;

pub use fault::UnpackFault;
pub use packing::{pack, pack_by, push_term};
pub use unpacking::unpack;
