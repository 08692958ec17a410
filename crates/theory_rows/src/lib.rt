//! Processes as rows of numbers, and what is told of a term in no order.
//!
//! Shapes, parts and events have numbers, so a process is a row: the number of its shape and those of its parts. What a
//! step makes of a row is told by numbers alone, and pairs of a search are known by their keys (`numbered`). What firing
//! a term shows may come in any order, and be less than all: how rows are judged by it, what of it need not be sent to a
//! store, and acceptances as bits (`unordered`).
#![tactic(auto)]

pub mod numbered;
pub mod unordered;
