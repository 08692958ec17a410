//! The states of a run.

use csp_moves::Origin;
use csp_term::{AllocHandle, Term};

/// The states of a run, and where the steps between them come from.
#[derive(Clone, Copy, Drop)]
pub struct Run<'r, A: AllocHandle> {
    /// The states: one before each step, and one at the end.
    pub states: &'r [Term<A>],
    /// The origin of each step, if one is known.
    pub origins: &'r [Option<Origin<A>>],
}
