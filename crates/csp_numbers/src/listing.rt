//! The events of channels, listed in order.

ghost use Rattle.std.specs.Prelude.{◌≡◌, ◌<◌, ◌++◌, ◌^◌, IfOk, OnOk, length, map};
ghost use Rattle.theory_shapes.specs.Alphabet.{events_from, field_lists, with_fields};
ghost use Rattle.csp_events.specs.Channels.{field_sets_of};
ghost use Rattle.csp_value.specs.Fields.{sets_of};
ghost use Rattle.csp_numbers.specs.Numbers.{AreListedWithin, events_of};

use crate::lists_of_values::{count_of_lists, list_of_number};
use csp_term::{AllocHandle, Channel, ChannelId, Event, Memory};
use csp_value::FieldSet;

/// Adds the events of a channel, of which there are so many.
fn add_events<A: AllocHandle>(
    alloc: A,
    events: &mut Vec<Event<A>, A>,
    channel: ChannelId,
    sets: &[FieldSet<A>],
    count: usize,
) -> Result<(), Memory>
    requires { count ≡ length (field_lists (sets_of sets.now)) }
    ensures { OnOk result (events_of events.new.items
        ≡ events_of events.old.items ++ with_fields channel.0 (field_lists (sets_of sets.now))) }
{
    for number in 0..count {
        let fields = list_of_number(alloc, sets, number, count)?;
        events.push(Event { channel, fields })?;
    }
    Ok(())
}

/// The number of the channel at a place.
fn channel_at(place: usize) -> Result<ChannelId, Memory>
    ensures { IfOk result (λ channel. channel.0 ≡ place) }
{
    match u32::try_from(place) {
        Ok(number) => Ok(ChannelId(number)),
        Err(_) => Err(Memory),
    }
}

/// The events of channels, or `None` where they are more than `most`. `Memory` also says that there are more channels
/// than there are numbers for them.
pub(crate) fn list_events<A: AllocHandle>(
    alloc: A,
    channels: &[Channel<A>],
    most: usize,
) -> Result<Option<Vec<Event<A>, A>>, Memory>
    requires { most < 2 ^ 63 }
    ensures { IfOk result (AreListedWithin most (events_from 0 (map field_sets_of channels.now))) }
{
    let mut events = Vec::new(alloc);
    for (place, channel) in channels.iter().enumerate() {
        let number = channel_at(place)?;
        let sets = channel.fields.as_slice();
        let Some(count) = count_of_lists(sets, most - events.len()) else {
            return Ok(None);
        };
        add_events(alloc, &mut events, number, sets, count)?;
    }
    Ok(Some(events))
}
