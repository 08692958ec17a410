//! The pairs of a renaming.

ghost use Rattle.std.specs.Prelude.{◌≡◌, IfOk};
ghost use Rattle.csp_events.specs.Events.{renaming_pair_of};

use crate::event_expression::EventExpression;
use csp_value::{Memory, TryCopy};
use std::alloc::Allocator;

/// `from <- to`: what begins as `from` is done as what begins as `to`. The order is that of `from`, then of `to`.
#[derive(Drop)]
#[derive_where(PartialEq, Eq, PartialOrd, Ord, Hash)]
pub struct RenamingPair<A: Allocator> {
    /// The event, or the bare channel, that is renamed.
    pub from: EventExpression<A>,
    /// What stands in its place.
    pub to: EventExpression<A>,
}

impl<A: Allocator + Copy> RenamingPair<A> {
    /// An equal pair in the given allocator, or `Memory` where that has no room: the pair with no value put in.
    pub fn try_copy(&self, alloc: A) -> Result<RenamingPair<A>, Memory>
        ensures { IfOk result (λ copy. renaming_pair_of copy ≡ renaming_pair_of self.now) }
    {
        self.put_in(alloc, &[])
    }
}

impl<A: Allocator + Copy> TryCopy<A> for RenamingPair<A> {
    ghost use Rattle.csp_events.specs.Events.{renaming_pair_of};

    ghost is_copy = { λ pair copy. renaming_pair_of copy ≡ renaming_pair_of pair };

    fn try_copy(&self, alloc: A) -> Result<RenamingPair<A>, Memory> {
        RenamingPair::try_copy(self, alloc)
    }
}
