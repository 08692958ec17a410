//! Sets of events as bits.

ghost use Rattle.std.specs.Prelude.{◌≡◌, false, get_or};

use crate::numbers::EventId;
use std::alloc::Allocator;

/// A set of events, by a bit for each number.
#[derive(Drop)]
pub struct Bits<A: Allocator> {
    /// Whether the event of each number is in the set.
    pub marks: Vec<bool, A>,
}

impl<A: Allocator> Bits<A> {
    /// Whether the event is in the set. An event beyond the bits is not.
    pub fn contains(&self, event: EventId) -> bool
        ensures { result ≡ get_or self.now.marks.items event.0 false }
    {
        self.marks.get(event.0 as usize).copied().unwrap_or(false)
    }
}
