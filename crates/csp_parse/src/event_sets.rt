//! Sets of events, as they are written.

use crate::events::Event;
use std::alloc::Allocator;
use theory_syntax::EventSetOperator;

/// A set of events as it is written.
#[derive(Drop)]
pub enum EventSet<'a, A: Allocator> {
    /// `{c.e, ..}`
    Enumeration(Vec<Event<'a, A>, A>),
    /// `{| c.e, .. |}`
    Productions(Vec<Event<'a, A>, A>),
    /// `union(X, Y)`, `inter(X, Y)` or `diff(X, Y)`
    Combine(EventSetOperator, Box<EventSet<'a, A>, A>, Box<EventSet<'a, A>, A>),
}
