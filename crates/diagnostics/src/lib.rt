//! Refusals of a text in words.
//!
//! `message` tells a refusal in lines that editors read: the file with the place, the number and the rule that is
//! broken, then the line of the text with a mark under the place, and then what may be meant. By its contract the first
//! lines are exactly those of the definitions. What may be meant is looked up in tables by the tokens around the place,
//! and of it the contract says nothing: tests show it. `refusal_list` has a line for each refusal.
//!
//! What they are made of can be called alone. `excerpt` makes the line of a text at a place, cut where it is long, and
//! under it a mark in the column of the place. `surroundings_at` finds the tokens around a place, and what is open
//! there; `first_advice` finds the first row of a table whose conditions these tokens meet; `nearest` finds a name that
//! is spelled most like a word. By their contracts they answer what the definitions say.
#![tactic(auto)]

mod advice_table;
mod brackets;
mod characters;
mod clashes;
mod conditions;
mod declared_names;
mod excerpts;
mod faults;
mod grammar_tables;
mod helps;
mod items;
mod kind_tables;
mod messages;
mod nearest_names;
mod notes;
mod open_events;
mod places;
mod seen_kinds;
mod tables;
mod texts;
mod value_bodies;

pub use advice_table::{AdviceTable, advice_tables};
pub use characters::{CHARACTERS, CharacterAdvice};
pub use conditions::Condition;
pub use excerpts::excerpt;
pub use faults::{Fault, Refusal, refusal_list};
pub use helps::help;
pub use messages::{message, message_with};
pub use nearest_names::nearest;
pub use places::{Surroundings, surroundings_at};
pub use tables::{Advice, first_advice};
pub use texts::{line_at, readable};
