//! The program `graph`, over the words, files and streams that are handed in.
//!
//! The contract of `run` says that the text of the graph that the words ask for went out, whole, and the status is 0; or
//! the status is 3, and a refusal went to the error stream, with its cause: that of a script in words, with its place and
//! line, and any other as a line. The graph is that of a side of an assertion: exactly the states that it reaches and
//! exactly their steps. It is made first, and then its text, and only then does anything go out. So of a graph that is
//! refused nothing does, and where the output fails, a beginning of the text may.
#![tactic(auto)]

mod asking;
mod printing;
mod running;
mod stop;

pub use running::run;
pub use stop::Stop;
