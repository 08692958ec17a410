//! What a watch is told by runs of `explain` and `graph`, and what they tell of it. The clock of the watch goes on at each
//! look, so that what is expected comes from how often it is looked at.
//!
//! The tests stand in a crate above the libraries, since a crate is proved anew for the tests that it has of its own.
#![tactic(auto)]

#[cfg(test)]
mod costs;
#[cfg(test)]
mod lines;
#[cfg(test)]
mod runs;
#[cfg(test)]
mod ticking;
