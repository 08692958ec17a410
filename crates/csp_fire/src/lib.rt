//! One firing of a term: all its steps and offers, or why it is stuck.
//!
//! `fire` answers an `Expansion`, which holds the script and a copy of the term and whose type keeps that its form is
//! exactly what the transition rules, the offers and the limits say of that term: the steps by action and then by
//! target, each once, and the acceptances, sorted, each once; or the fault; or that a step leads past the limits.
#![tactic(auto)]

mod expansion;
mod firing;
mod form;
mod offers;

pub use expansion::Expansion;
pub use firing::fire;
pub use form::{Form, Step};
pub use offers::copy_offers;
