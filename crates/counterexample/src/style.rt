//! How counterexamples are told.

use crate::telling::Telling;
use crate::width::Width;
use csp_print::Names;
use std::alloc::Allocator;

/// By which names terms are told, how much of a state, which states of a specification, and how steps.
#[derive(Clone, Copy, Drop)]
pub struct Style<'n, 't, A: Allocator> {
    /// The names of the script.
    pub names: &'n Names<'t, A>,
    /// How many characters of a state are told.
    pub width: Width,
    /// How many states of the specification are told at a time.
    pub few: usize,
    /// Up to how many states of the specification after a beginning of the path any of them are told.
    pub most: usize,
    /// How many taus of a loop are told.
    pub taus: Width,
    /// Among how many states a loop, or a state for which there is no answer, is looked for at most.
    pub reach: usize,
    /// How the steps are told.
    pub telling: Telling,
}
