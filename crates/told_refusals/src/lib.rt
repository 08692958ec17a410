//! Refusals of a file or its text, in words.
//!
//! `refuse_unread` tells a file that cannot be read by its name and with the reason, and `refuse_text` a text that is no
//! script with the place, the rule and its line. Where memory is refused for the words, the line of the refusal is given.
//! Each answers the status of a refusal. What they tell it by,
//! as a name that is shown or the reason of a lack in words, is for other forms of telling too.
#![tactic(auto)]

mod file_name;
mod refusals;

pub use file_name::{lack_text, shown_name, unread_line};
pub use refusals::{refuse_text, refuse_unread, refused_text};
