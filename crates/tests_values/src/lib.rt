//! What values and tokens are seen to do: each public call once, tables of worked values, and refused memory.
//!
//! The tests stand in a crate above the libraries, since a crate is proved anew for the tests that it has of its own.
//! They need no terms, so they wait for no more than the lowest libraries.
#![tactic(auto)]

#[cfg(test)]
mod tokens;
#[cfg(test)]
mod values;
