//! What `csp_kinds` is seen to do: long texts, the scripts that are answered, and refused memory. Which texts are refused
//! for their names, sets and kinds, by which number and where, are cases of `cases`.
//!
//! The expected answers are taken from the rules of the language. The tests stand in a crate above the check, since a
//! crate is proved anew for the tests that it has of its own.
#![tactic(auto)]

#[cfg(test)]
mod answers;
#[cfg(test)]
mod long;
#[cfg(test)]
mod memory;
#[cfg(test)]
mod samples;
#[cfg(test)]
mod scripts;
#[cfg(test)]
mod show;
