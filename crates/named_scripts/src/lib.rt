//! Texts with their scripts and names.
//!
//! `read` answers the checked script that a text is, with the spellings of its names, by which it is told of, and with the
//! places of its assertions; or the one reason for which the text is no script. `NamedScript::as_asked` has the names of its
//! equations unfolded at once, where that is asked for.
#![tactic(auto)]

mod reader;

pub use reader::{NamedScript, read};
