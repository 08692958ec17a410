//! The command line of `refcheck`: a file to check, three options, each a number in a range, and a flag.
//!
//! `read` makes the settings of the words after the program's name. Which value a word gives to which option is said in
//! the words of `clap`, of which the command here is a simple one.
#![tactic(auto)]

mod command;
mod fault;
mod help;
mod settings;

pub use command::{UNFOLD, flag};
pub use fault::CommandLineFault;
pub use settings::{MAX_NODES, MAX_PAIRS, MAX_WORKERS, Settings, is_used, number, read};
