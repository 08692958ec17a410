//! The command line of `explain`: a file, the number of an assertion, a format, and options, each a number in a range.
//!
//! `read` makes the settings of the words after the program's name. Which value a word gives to which argument is said in
//! the words of `clap`, of which the command here is a simple one.
#![tactic(auto)]

mod command;
mod format;
mod help;
mod options;

pub use format::Format;
pub use options::{Settings, read};
