//! The command line of `walk`: a file, the number of an assertion, a width and two flags.
//!
//! `read` makes the settings of the words after the program's name, or answers why there are none. Which value a word
//! gives to which argument is said in the words of `clap`, of which the command here is a simple one.
#![tactic(auto)]

mod command;
mod help;
mod options;

pub use options::{Settings, read};
