//! The steps of a row by numbers, in no order.
//!
//! A row is a term that is lent by its shape and the numbers of its parts. `steps_of_row` answers all its steps, each as the
//! parts that take the places of others, or that the term is large: exactly what the rules say of the term. It makes no
//! bytes and no terms, and puts nothing in order. `push_target` answers what a step leads to, as a row of numbers again, where
//! all that comes in are parts, which `is_part` tells of their bytes.
#![tactic(auto)]

mod heads;
mod lent;
mod stepping;
mod targets;

pub use heads::is_part;
pub use lent::LentRow;
pub use stepping::{RowSteps, steps_of_row};
pub use targets::push_target;
