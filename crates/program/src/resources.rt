//! What a run works with.

use crate::stack::Stack;
use std::alloc::Global;

/// What a run works with.
#[derive(Clone, Copy, Drop)]
pub struct Resources<'r, A, R> {
    /// The memory that the words are read with.
    pub command_line: Global,
    /// The memory for all else.
    pub alloc: A,
    /// What starts workers and waits for them.
    pub rt: &'r R,
    /// The stack of the thread that runs.
    pub stack: Stack,
}
