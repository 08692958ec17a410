//! The program `explain`, over the words, files and streams that are handed in.
//!
//! The contract of `run` says that the explanations of right outcomes went out, one for each assertion that the words ask
//! for, and the status is that of the outcomes; or the status is 3 and a refusal went to the error stream, with its cause:
//! that of a script in words, with its place and line, and any other as a line. Where the words ask for objects, each of
//! these is an object of JSON.
//!
//! Each explanation goes out as soon as its assertion is answered. So where memory is refused later, or the output fails,
//! the explanations before stand there, and of the last one a beginning may.
#![tactic(auto)]

mod costs;
mod counting;
mod explaining;
mod notes;
mod objects;
mod refusals;
mod running;
mod search_size;
mod searching;
mod statuses;
mod stop;
mod telling;
mod untold;

pub use running::run;
pub use stop::Stop;
