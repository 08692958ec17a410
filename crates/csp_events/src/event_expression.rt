//! Events with expressions in their fields.

ghost use Rattle.std.specs.Prelude.{◌≡◌, IfOk};
ghost use Rattle.csp_events.specs.Events.{event_expression_of};

use csp_expression::Expr;
use csp_value::{ChannelId, Memory, TryCopy};
use std::alloc::Allocator;

/// `c.e.f`, a channel with expressions for its first fields. The order is that of the channels, then of the fields in
/// turn.
#[derive(Drop)]
#[derive_where(PartialEq, Eq, PartialOrd, Ord, Hash)]
pub struct EventExpression<A: Allocator> {
    /// The channel, by its number in the order of the declarations.
    pub channel: ChannelId,
    /// One expression for each of the first fields, in order.
    pub fields: Vec<Expr<A>, A>,
}

impl<A: Allocator + Copy> EventExpression<A> {
    /// An equal event in the given allocator, or `Memory` where that has no room: the event with no value put in.
    pub fn try_copy(&self, alloc: A) -> Result<EventExpression<A>, Memory>
        ensures { IfOk result (λ copy. event_expression_of copy ≡ event_expression_of self.now) }
    {
        self.put_in(alloc, &[])
    }
}

impl<A: Allocator + Copy> TryCopy<A> for EventExpression<A> {
    ghost use Rattle.csp_events.specs.Events.{event_expression_of};

    ghost is_copy = { λ event copy. event_expression_of copy ≡ event_expression_of event };

    fn try_copy(&self, alloc: A) -> Result<EventExpression<A>, Memory> {
        EventExpression::try_copy(self, alloc)
    }
}
