//! The way from a process down to a part that moves.

use csp_term::{AllocHandle, Event};

/// A side of an operator, or a branch of a condition.
#[derive(Clone, Copy, Debug, PartialEq, Eq)]
pub enum Side {
    /// The left operand, or the first branch.
    Left,
    /// The right operand, or the second branch.
    Right,
}

/// The way from a process down to a part that moves, and what the process makes of the part's step.
#[derive(Drop)]
pub enum Passage<A: AllocHandle> {
    /// To a side of a parallel operator.
    OnSide(Side),
    /// To the body under hiding or renaming.
    InBody,
    /// To a side of another operator, or to a branch.
    OnBranch(Side),
    /// To the body under a guard.
    UnderGuard,
    /// To the chain of the instances of a replicated operator.
    InChain,
    /// The side ends, which is a tau here.
    SideEnds(Side),
    /// The body does the event, which is hidden here.
    Hides(Event<A>),
    /// The body does the first event, which is renamed to the second here.
    Renames(Event<A>, Event<A>),
}
