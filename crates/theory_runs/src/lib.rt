//! Runs told state by state, and runs to terms that are stuck.
//!
//! A violation names a path, and a path leads through states. Which states those are is said here, and how all terms
//! are found that the beginnings of a path lead to (`runs`). A term is stuck where a rule for it lacks a value, or where
//! it, or what a step of it leads to, is too large: which runs lead to such a term, and how the terms that runs lead to
//! are met one after the other, stands beside it (`stuck_runs`). With the facts that show both right.
#![tactic(auto)]

pub mod runs;
pub mod stuck_runs;
