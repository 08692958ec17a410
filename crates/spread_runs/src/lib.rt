//! Runs of a script whose names are unfolded at once, told as runs of the script as it is written.
//!
//! `spread_run` and `spread_loop` look for a run by tau that spreads one at once: step by step, by firing the term where
//! it stands, and behind each step by taus to the state that the step leads to at once. What they answer is such a run, by
//! the definitions; that they find one is not promised, and where they do not they say so.
#![tactic(auto)]

mod loops;
mod reading;
mod runs;
mod steps;
mod toward;
mod walk;

pub use loops::{SpreadLoop, spread_loop};
pub use reading::written_script;
pub use runs::{SpreadRun, spread_run};
