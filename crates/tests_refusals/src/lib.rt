//! What runs of `graph` and `walk` are seen to refuse where no table of cases can show it: memory that refuses, outputs
//! that break off, an input that fails, a text that is too long for the stack. What is expected comes from the rules and
//! from what is to be told.
//!
//! The tests stand in a crate above the libraries, since a crate is proved anew for the tests that it has of its own.
#![tactic(auto)]

#[cfg(test)]
mod inputs;
#[cfg(test)]
mod memory;
#[cfg(test)]
mod outputs;
#[cfg(test)]
mod runs;
#[cfg(test)]
mod stacks;
