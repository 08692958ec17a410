//! Walks through a process by hand, step by step.
//!
//! `Walk` begins at a term of a script. `push_view` shows where the walk is, by its contract as the definitions show it:
//! the state with all its steps, by number, and where each comes from, or what the state is stuck by. `answer` does what
//! a line of input asks for, and answers what is to be shown behind it: the state where the walk is now, or a text, or
//! nothing, since the walk has ended. Where memory is refused the walk is where it was.
#![tactic(auto)]

mod answer;
mod command;
mod menu;
mod naming;
mod trail;
mod view;
mod walk;

pub use answer::Answer;
pub use menu::{Menu, Move};
pub use walk::Walk;
