//! What runs of the program `explain` are seen to print and answer where no table of cases can show it: memory that
//! refuses, outputs that break off, names of files, long texts. What is expected comes from the rules of the language and
//! from what is to be told.
//!
//! The tests stand in a crate above the libraries, since a crate is proved anew for the tests that it has of its own.
#![tactic(auto)]

#[cfg(test)]
mod answers;
#[cfg(test)]
mod command_lines;
#[cfg(test)]
mod full;
#[cfg(test)]
mod memory;
#[cfg(test)]
mod outputs;
#[cfg(test)]
mod refusals;
#[cfg(test)]
mod runs;
