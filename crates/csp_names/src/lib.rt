//! What the names of a tree mean where they stand, and the terms that are made of them.
//!
//! The declared names are taken up once (`names_of`). A walk over a part of the tree looks at its names in the order of
//! the text, and makes the term at once. By its contract it answers what the definitions make of the part where no name
//! is refused, and else the first refusal at its place.
#![tactic(auto)]

mod bound_names;
mod channels;
mod constructors;
mod definitions;
mod meanings;
mod name_table;
mod names;
mod refusals;
mod resolve_events;
mod resolve_expressions;
mod resolve_fields;
mod resolve_pairs;
mod resolve_processes;
mod scope;
mod terms;

pub use bound_names::{BoundName, BoundNames};
pub use meanings::Declared;
pub use name_table::{declared_count, names_of};
pub use names::Names;
pub use refusals::{KindFault, Refused};
pub use scope::Scope;
