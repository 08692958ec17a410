//! Names that are unfolded at once.
//!
//! `settle` answers a term as a step leads to it: with its active calls unfolded where the script says so. A call goes on
//! as the body of its equation with the values of the arguments put in, and a replicated operator as the chain of its
//! instances.
#![tactic(auto)]

mod arguments;
mod body;
mod calls;
mod instances;
mod operands;
mod place;
mod settling;
mod truth;
mod unfolded;

pub use arguments::{argument_values, parameter_bindings};
pub use body::called;
pub use settling::{MOST_UNFOLDINGS, settle, settled_assertion};
pub use truth::condition;
pub use unfolded::Unfolded;
