//! Explanations and refusals as lines of JSON.
//!
//! `answer_line` makes the line of an answered assertion, with the steps, the loop and the parts of its account, `unread_line` that of a file that cannot be read, and
//! `text_line` that of a refused text. By its contract each is the line of the object that the definitions have, with its
//! fields in their order. A line is made whole or not at all.
#![tactic(auto)]

mod accounts;
mod actions;
mod answers;
mod doers;
mod fields;
mod found;
mod lines;
mod loops;
mod origins;
mod places;
mod refusals;
mod sizes;
mod steps;
mod waiting;
mod ways;

pub use answers::{Answered, answer_line};
pub use refusals::{RefusedText, text_line, unread_line};
pub use sizes::Size;
