//! Where a step comes from.

use crate::passage::{Passage, Side};
use csp_term::{AllocHandle, EquationId, Event};

/// Which part of a process moves, and by which rule.
#[derive(Drop)]
pub enum Origin<A: AllocHandle> {
    /// A prefix does its event.
    Does(Event<A>),
    /// `SKIP` ends, or a composition of which both sides have ended.
    Ends,
    /// A call becomes the body of its equation.
    Unfolds(EquationId),
    /// `|~|` becomes a side.
    Chooses(Side),
    /// `[>` becomes its right side.
    Slides,
    /// A part moves.
    Below(Passage<A>, Box<Origin<A>, A>),
    /// Both sides do one event.
    Together(Box<Origin<A>, A>, Box<Origin<A>, A>),
}
