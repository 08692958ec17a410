//! Events and pairs of renamings, as they are written.

use crate::expressions::Expression;
use crate::names::Name;
use std::alloc::Allocator;

/// An event as it is written: `c`, or `c.e.f`.
#[derive(Drop)]
pub struct Event<'a, A: Allocator> {
    /// The name at its beginning.
    pub channel: Name<'a>,
    /// The expressions behind dots, in order.
    pub fields: Vec<Expression<'a, A>, A>,
}

/// A pair `from <- to` of a renaming.
#[derive(Drop)]
pub struct Pair<'a, A: Allocator> {
    /// The left side.
    pub from: Event<'a, A>,
    /// The right side.
    pub to: Event<'a, A>,
}
