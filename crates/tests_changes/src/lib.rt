//! What the steps of shapes by numbers are seen to be.
//!
//! The shapes are those of the worked examples of the definitions, in a table that has a row for each. The test stands in
//! a crate above the library, since a crate is proved anew for the tests that it has of its own.
#![tactic(auto)]

#[cfg(test)]
mod shapes;
#[cfg(test)]
mod steps;
#[cfg(test)]
mod targets;
