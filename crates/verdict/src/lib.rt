//! What a check of an assertion answers: that it holds, a violation, or why there is no answer.
//!
//! A copy is equal to what it is of, and the trace of a violation is its path without taus.
#![tactic(auto)]

mod outcome;
mod shown;
mod trace;

pub use outcome::{Outcome, Why};
pub use shown::{Evidence, Shown};
pub use trace::Trace;
