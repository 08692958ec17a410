//! Rows as they are lent to be stepped.

use csp_rows::{Part, PartId, Shape};
use std::alloc::Allocator;

/// A term by its shape and the numbers of its parts, as it is lent to be stepped.
#[derive(Drop)]
pub struct LentRow<'r, A: Allocator> {
    /// Its shape.
    pub shape: &'r Shape<A>,
    /// The numbers of the parts in the holes, from the left.
    pub numbers: &'r [PartId],
    /// What is kept of all parts.
    pub parts: &'r [Part<A>],
    /// How many nodes the term has.
    pub nodes: u32,
    /// How many operators stand over each hole.
    pub levels: &'r [u32],
}
