//! What state graphs and their texts are seen to be.
//!
//! Processes are texts over the channels `a`, `b`, `tau` and `tick` without fields, and `d` of 0 and 1.
#![tactic(auto)]

mod implementations;
#[cfg(test)]
mod refusals;
#[cfg(test)]
mod requests;
#[cfg(test)]
mod scripts;
#[cfg(test)]
mod texts;
