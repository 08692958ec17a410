//! Rows as they are lent to be fired, and what firing shows of them.

use crate::numbers::{ActionId, PartId};
use crate::part::Part;
use crate::places::Place;
use crate::shape::Shape;
use std::alloc::Allocator;

/// A term by its shape and the numbers of its parts, as it is lent to be fired.
#[derive(Drop)]
pub struct RowByNumbers<'r, A: Allocator> {
    /// Its shape.
    pub shape: &'r Shape<A>,
    /// The numbers of the parts in the holes, from the left.
    pub numbers: &'r [PartId],
    /// What is kept of all parts.
    pub parts: &'r [Part<A>],
    /// The bytes that spell the term.
    pub bytes: &'r [u8],
    /// Where the part in each hole is spelled.
    pub places: &'r [Place],
    /// How many nodes the term has.
    pub nodes: u32,
    /// How many operators stand over each hole.
    pub levels: &'r [u32],
}

/// A step: what is done, and the bytes that spell what it leads to.
#[derive(Drop)]
pub struct RowStep<A: Allocator> {
    /// What is done.
    pub action: ActionId,
    /// The bytes of the term that it leads to.
    pub target: Vec<u8, A>,
}

/// What firing a row shows.
#[derive(Drop)]
pub enum RowForm<A: Allocator> {
    /// All steps, in order, each once, and all acceptances, by the numbers of their actions.
    Steps(Vec<RowStep<A>, A>, Vec<Vec<ActionId, A>, A>),
    /// Some step leads past the limits.
    Large,
    /// Some step does not leave the shape as it is, so the steps are not told by the parts.
    Untold,
}
