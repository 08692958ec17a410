//! Runs of a script whose names are unfolded at once, told as runs of the script as it is written.
//!
//! A step at once is one by tau, and behind it a tau for each name that it unfolds. So a run at once is told by one by
//! tau that spreads it: with more taus, but the same trace, and to the same state, which shows the same evidence
//! (`spread`).
#![tactic(auto)]

pub mod spread;
