//! Sets of events.

ghost use Rattle.std.specs.Prelude.{◌≡◌, IfOk};
ghost use Rattle.csp_events.specs.Events.{event_set_of};

use crate::event_expression::EventExpression;
use csp_value::{Memory, TryCopy};
use std::alloc::Allocator;
use theory_syntax::EventSetOperator;

/// A set of events as it is written. The order is that of the forms, then of the parts in turn.
#[derive(Drop)]
#[derive_where(PartialEq, Eq, PartialOrd, Ord, Hash)]
pub enum EventSet<A: Allocator> {
    /// `{c.e, ..}`, the set of the events.
    Enumeration(Vec<EventExpression<A>, A>),
    /// `{| c.e, .. |}`, the set of the events that begin so.
    Productions(Vec<EventExpression<A>, A>),
    /// An operator with its left and its right operand.
    Combine(EventSetOperator, Box<EventSet<A>, A>, Box<EventSet<A>, A>),
}

impl<A: Allocator + Copy> EventSet<A> {
    /// An equal set in the given allocator, or `Memory` where that has no room: the set with no value put in.
    #[tactic(auto, using(theory_semantics::proofs::Putting::put_nothing_in_set))]
    pub fn try_copy(&self, alloc: A) -> Result<EventSet<A>, Memory>
        ensures { IfOk result (λ copy. event_set_of copy ≡ event_set_of self.now) }
    {
        self.put_in(alloc, &[])
    }
}

impl<A: Allocator + Copy> TryCopy<A> for EventSet<A> {
    ghost use Rattle.csp_events.specs.Events.{event_set_of};

    ghost is_copy = { λ set copy. event_set_of copy ≡ event_set_of set };

    fn try_copy(&self, alloc: A) -> Result<EventSet<A>, Memory> {
        EventSet::try_copy(self, alloc)
    }
}
