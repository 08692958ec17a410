//! Names that are unfolded at once.
//!
//! In one reading of a script a called name does a tau to the body of its equation, and in the other the body stands in
//! its place at once. Every assertion has the same answer in both, and what the second shows of a failure is one in the
//! first (`both_readings`). So what a search in the second tells is so in the first (`told_at_once`).
#![tactic(auto)]

pub mod both_readings;
pub mod told_at_once;
