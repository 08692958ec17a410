//! The program `walk`, over the words, files and streams that are handed in.
//!
//! The contract of `run` says that the text of a walk went out, from the side of an assertion that the words ask for and
//! by the lines of the input, all of them up to one that ends it, and the status is 0; or the status is 3, and a refusal
//! went to the error stream, with its cause: that of a script in words, with its place and line, and any other as a line.
//! What a state offers on the way are exactly its steps.
//!
//! Each state goes out as soon as the line that leads there was read. So where memory is refused on the way, or the input
//! or the output fails, the walk up to there stands, and of what came last a beginning may.
#![tactic(auto)]

mod asking;
mod going;
mod lines;
mod running;
mod stop;

pub use running::run;
pub use stop::Stop;
