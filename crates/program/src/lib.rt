//! The program `refcheck`, over the words, files and streams that are handed in.
//!
//! The contract of `run` says that either the report of right outcomes went out, one for each assertion of a script, and
//! the status is that of the outcomes, or the status is 3 and the line of a refusal went to the error stream, with its
//! cause: a text that is refused by the rules of the language, a file that cannot be read, an output that has failed, a
//! text that is too long for the stack that is there, or want of memory. `holds` means that what the assertion asks is
//! so, and `fails` shows a violation, or stands alone where there is none and `not` asks for one. Words that ask for the
//! help or the version are answered with it.
//!
//! Texts are read from files by their names, each up to its first 65,537 bytes, which is one byte more than a script may
//! have: so a longer file, and one without an end, is told from a script. `read_beginning` answers so much of what any
//! reader gives, `MachineFiles` of a file of the machine, and `OneText` of one text in memory.
//!
//! Each program begins with `on_large_stack`, which works in a thread with a stack for any text where there can be one,
//! and `start`, which runs a program on the words of the machine and answers its status, or tells why there are none. So
//! `main` hands in, and decides nothing.
#![tactic(auto)]

mod beginning;
mod files;
mod large_stack;
mod machine;
mod one_text;
mod reader;
mod refusal;
mod resources;
mod running;
mod stack;
mod words;

pub use beginning::{MOST_BYTES, read_beginning};
pub use files::{Files, Lack, Unread};
pub use large_stack::on_large_stack;
pub use machine::{MachineFiles, is_standard_input};
pub use one_text::OneText;
pub use reader::read;
pub use refusal::Refusal;
pub use resources::Resources;
pub use running::{refuse, refuse_words, run, show};
pub use stack::{SHORT_TEXT, Stack};
pub use words::{command_words, start};
