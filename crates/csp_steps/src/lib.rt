//! The rules of the operators: all steps of a term, or why a rule has no value.
//!
//! `steps` answers each step that the rules give a term under bindings, and no other, whether it leads to a term within
//! the limits or past them; or the first cause for which a rule needs a value that does not exist. No limit of the term
//! itself is looked at here, and what is answered is in no order: a firing decides the one and sorts the other.
//!
//! One rule stands in one file below `rules`, which says what sides it asks for. What an operator makes of the steps of
//! its sides stands in a file of its name beside that folder: given what the rules answer of the sides, or why they
//! answer nothing, it answers each step of the whole, also those that lead past the limits, or the first cause. Which
//! steps the sides have is not asked there.
#![tactic(auto)]

pub mod choice;
mod composition;
mod context;
pub mod hiding;
pub mod interrupt;
mod leave;
mod meeting;
pub mod parallel;
pub mod renaming;
mod rule_step;
mod rules;
pub mod sequential;
mod sharing;
mod side;
pub mod sliding;
mod stay;

pub use csp_expression::NoValue;
pub use rule_step::{RuleStep, Target, one_step};
pub use rules::steps;
pub use side::Side;
