//! Values, expressions, sets of events and terms as text of the language.
//!
//! Each call puts a text behind what stands in a string: by its contract it is the one that the notation of the
//! definitions gives, with the brackets that the grammar needs and no others. Where the names have types, what gives a value
//! is told by it. Where memory is refused, a beginning of the text may have been put there.
#![tactic(auto)]

mod event_sets;
mod expressions;
mod fields;
mod marks;
mod minus;
mod names;
mod operators;
mod processes;
mod ranks;
mod shapes;
mod told;
mod values;

pub use event_sets::push_event_set;
pub use expressions::push_expression;
pub use names::Names;
pub use processes::push_term;
pub use values::push_value;
