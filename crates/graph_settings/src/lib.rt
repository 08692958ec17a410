//! The command line of `graph`: a file, the number of an assertion, a format, a limit and three flags.
//!
//! `read` makes the settings of the words after the program's name, or answers why there are none. Which value a word
//! gives to which argument is said in the words of `clap`, of which the command here is a simple one.
#![tactic(auto)]

mod command;
mod format;
mod help;
mod options;

pub use command::MAX_STATES;
pub use format::Format;
pub use options::{Settings, read};
