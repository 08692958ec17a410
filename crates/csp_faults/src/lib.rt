//! What is to blame where a rule lacks a value.
//!
//! `culprit_in` answers what is to blame in a term for which a rule lacks a value: the smallest expression that has no
//! value though its operands have one, with their values, a value outside of the set of its field, or an internal choice
//! over an empty set. It answers nothing exactly where the rules lack nothing. What is to blame in an expression, in fields,
//! in a set of events, in a renaming and in a term's own parts is found by a call for each, over the definition of that
//! name.
#![tactic(auto)]

mod asked;
mod culprit;
mod declared;
mod events;
mod expressions;
mod fields;
mod given;
mod own;
mod parts;
mod renamings;
mod terms;
mod values;

pub use culprit::{Culprit, Owner};
pub use terms::culprit_in;
