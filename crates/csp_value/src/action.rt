//! Events and actions.

ghost use Rattle.std.specs.Prelude.{◌≡◌, IfOk};
ghost use Rattle.csp_value.specs.Action.{action_of, event_of};
ghost use Rattle.csp_value.specs.Value.{values_of};

use crate::copy::TryCopy;
use crate::handle::AllocHandle;
use crate::memory::Memory;
use crate::name::ChannelId;
use crate::value::Value;
use smallvec::SmallVec;

/// An event: a channel, with a value for each of its fields. Two fields lie in the event itself, and more of them in
/// the allocator. Events are ordered by their channels, then by their fields in turn.
#[derive(Drop)]
#[derive_where(PartialEq, Eq, PartialOrd, Ord, Hash)]
pub struct Event<A: AllocHandle> {
    /// The channel.
    pub channel: ChannelId,
    /// The values of its fields, in order.
    pub fields: SmallVec<Value<A>, 2, A>,
}

/// What a process does in one step. The order is tau, tick, then the events.
#[derive(Drop)]
#[derive_where(PartialEq, Eq, PartialOrd, Ord, Hash)]
pub enum Action<A: AllocHandle> {
    /// The hidden action.
    Tau,
    /// The end of a process.
    Tick,
    /// A visible event.
    Event(Event<A>),
}

impl<A: AllocHandle> Event<A> {
    /// An equal event in the given allocator, or `Memory` where that has no room.
    pub fn try_copy(&self, alloc: A) -> Result<Event<A>, Memory>
        ensures { IfOk result (λ copy. event_of copy ≡ event_of self.now) }
    {
        let fields = copy_fields(alloc, self.fields.as_slice())?;
        Ok(Event {
            channel: self.channel,
            fields,
        })
    }
}

/// A copy of each field, in order.
fn copy_fields<A: AllocHandle>(
    alloc: A,
    values: &[Value<A>],
) -> Result<SmallVec<Value<A>, 2, A>, Memory>
    ensures { IfOk result (λ copies. values_of copies.items ≡ values_of values.now) }
{
    let mut copies = SmallVec::new(alloc);
    for value in values {
        copies.push(value.try_copy(alloc)?)?;
    }
    Ok(copies)
}

impl<A: AllocHandle> Action<A> {
    /// An equal action in the given allocator, or `Memory` where that has no room.
    pub fn try_copy(&self, alloc: A) -> Result<Action<A>, Memory>
        ensures { IfOk result (λ copy. action_of copy ≡ action_of self.now) }
    {
        match self {
            Action::Tau => Ok(Action::Tau),
            Action::Tick => Ok(Action::Tick),
            Action::Event(event) => Ok(Action::Event(event.try_copy(alloc)?)),
        }
    }
}

impl<A: AllocHandle> TryCopy<A> for Event<A> {
    ghost use Rattle.csp_value.specs.Action.{event_of};

    ghost is_copy = { λ event copy. event_of copy ≡ event_of event };

    fn try_copy(&self, alloc: A) -> Result<Event<A>, Memory> {
        Event::try_copy(self, alloc)
    }
}

impl<A: AllocHandle> TryCopy<A> for Action<A> {
    ghost use Rattle.csp_value.specs.Action.{action_of};

    ghost is_copy = { λ action copy. action_of copy ≡ action_of action };

    fn try_copy(&self, alloc: A) -> Result<Action<A>, Memory> {
        Action::try_copy(self, alloc)
    }
}
