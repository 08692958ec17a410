//! How far a run is, told to the one who watches it.
//!
//! A `SearchProgress` is the gate of a search for the answer to an assertion, and a `GraphProgress` observes a graph in the
//! making. Once a second, and not before the first, each gives its watch a line. A line is told by the thread that began
//! the run, between two pieces of work, with no lock taken. So none comes while something else is done, as the making of a
//! normal form, and no answer depends on any. Where no memory is left for a line, it is left out.
#![tactic(auto)]

mod graph_progress;
mod lines;
mod search_progress;
mod seconds;

pub use graph_progress::GraphProgress;
pub use search_progress::SearchProgress;
