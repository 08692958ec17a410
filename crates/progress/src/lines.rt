//! The lines that are told.

ghost use Rattle.std.specs.Prelude.{◌≡◌, ◌≤◌, IfOk};
ghost use Rattle.std.specs.String.{string_bytes};
ghost use Rattle.progress.specs.Lines.{graph_line, search_line};

use std::alloc::{AllocError, Allocator};

/// How far a search is.
#[derive(Clone, Copy, Drop)]
pub(crate) struct SearchState {
    /// The number of its assertion.
    pub(crate) assertion: u64,
    /// The number of the level that is in work.
    pub(crate) level: u64,
    /// The pairs that were stored when the level began.
    pub(crate) stored: u64,
    /// The pairs of them that workers have taken up.
    pub(crate) drawn: u64,
}

/// What is told of a search that has gone on for so many seconds.
pub(crate) fn search_line<A: Allocator>(
    alloc: A,
    state: &SearchState,
    seconds: u64,
) -> Result<String<A>, AllocError>
    requires { 1 ≤ seconds }
    ensures { IfOk result (λ line. string_bytes line ≡ search_line state.now seconds) }
{
    let (assertion, level) = (state.assertion, state.level);
    let (stored, drawn) = (state.stored, state.drawn);
    let each_second = drawn / seconds;
    format!(in alloc;
        "assertion {assertion}, level {level}: {stored} pairs, {drawn} of them taken up, {each_second} a second"
    )
}

/// What is told of a graph of which so many states are found after so many seconds.
pub(crate) fn graph_line<A: Allocator>(
    alloc: A,
    states: u64,
    seconds: u64,
) -> Result<String<A>, AllocError>
    requires { 1 ≤ seconds }
    ensures { IfOk result (λ line. string_bytes line ≡ graph_line states seconds) }
{
    let each_second = states / seconds;
    format!(in alloc; "{states} states, {each_second} a second")
}
