//! Terms as shapes with parts in their holes, and the events of a script.
//!
//! The operators `|||`, `[| |]`, `[ || ]`, `\` and renaming stay where a process inside them takes a step. So a term is
//! a shape, of such operators round holes, and a part in each hole: its spelling, its size, its depth and its steps are
//! those of its parts, put together along the shape (`shapes`). Of events a term does none but those of its script,
//! which rise, so that each has a number of its own: its place among them (`alphabet`).
#![tactic(auto)]

pub mod alphabet;
pub mod shapes;
