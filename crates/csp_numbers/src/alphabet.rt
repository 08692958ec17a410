//! All events of a script.

ghost use Rattle.std.specs.Prelude.{◌≡◌, ◌↔◌, [], IfOk, IsTrue, length};
ghost use Rattle.theory_syntax.specs.Value.{event_cmp};
ghost use Rattle.csp_value.specs.Action.{event_of};
ghost use Rattle.csp_events.specs.Testing.{event_with};
ghost use Rattle.theory_shapes.specs.Alphabet.{alphabet as events_of_script};
ghost use Rattle.csp_term.specs.Script.{script_of};
ghost use Rattle.csp_numbers.specs.Numbers.{AreNumbered, AreWithin, IsEventAt, IsNumberOf, events_of};

use crate::listing::list_events;
use csp_rows::EventId;
use csp_term::{AllocHandle, ChannelId, Event, Memory, Script};
use csp_value::Value;
use std::cmp::Ordering;
use std::marker::Model;

/// All events of a script, in order. A clause sees it as their list, in which each stands at one place: its number.
#[derive(Drop)]
pub struct Alphabet<A: AllocHandle> {
    events: Vec<Event<A>, A>,
}

impl<A: AllocHandle> Model for Alphabet<A> {
    ghost use Rattle.std.specs.Prelude.{List};
    ghost use Rattle.theory_syntax.specs.Value.{Event};
    ghost use Rattle.theory_syntax.specs.Codes.Coding.{coded, coding_list};
    ghost use Rattle.theory_syntax.specs.Codes.Values.{coding_event};
    ghost use Rattle.csp_numbers.specs.Numbers.{AreNumbered, events_of};

    ghost Value = { List Event };

    ghost coded = { coded (coding_list coding_event) };

    ghost view = { λ a. events_of a.events.items };

    ghost invariant = { λ a. AreNumbered (events_of a.events.items) };
}

/// The order of an event and the one of the channel with these fields.
fn compared<A: AllocHandle>(event: &Event<A>, channel: ChannelId, fields: &[Value<A>]) -> Ordering
    ensures { result ≡ event_cmp (event_of event.now) (event_with channel fields.now) }
{
    match event.channel.cmp(&channel) {
        Ordering::Equal => event.fields.as_slice().cmp(&fields),
        order => order,
    }
}

impl<A: AllocHandle> Alphabet<A> {
    /// All events of the script, or `None` where there are more than `most`. `Memory` also says that there are more
    /// channels than there are numbers for them.
    pub fn of_script(alloc: A, script: &Script<A>, most: u32) -> Result<Option<Alphabet<A>>, Memory>
        ensures { IfOk result (AreWithin most (events_of_script (script_of script.now))) }
    {
        let parts = script.parts();
        match list_events(alloc, &parts.channels, most as usize)? {
            Some(events) => Ok(Some(Alphabet { events })),
            None => Ok(None),
        }
    }

    /// The events, in order.
    pub fn events(&self) -> &[Event<A>]
        ensures listed { events_of result.now ≡ self.now }
        ensures numbered { AreNumbered self.now }
    {
        self.events.as_slice()
    }

    /// How many events there are.
    pub fn len(&self) -> usize
        ensures { result ≡ length self.now }
    {
        self.events.len()
    }

    /// Whether there is no event.
    pub fn is_empty(&self) -> bool
        ensures { IsTrue result ↔ (self.now ≡ []) }
    {
        self.events.is_empty()
    }

    /// The event of this number, `None` where there are not so many.
    pub fn event(&self, number: EventId) -> Option<&Event<A>>
        ensures { IsEventAt self.now number.0 result }
    {
        self.events.get(number.0 as usize)
    }

    /// The number of the event, found by halving, or `None` where it is no event of the script.
    pub fn number(&self, event: &Event<A>) -> Option<EventId>
        ensures { IsNumberOf self.now (event_of event.now) result }
    {
        self.number_with(event.channel, &event.fields)
    }

    /// The number of the event of the channel with these fields.
    pub(crate) fn number_with(&self, channel: ChannelId, fields: &[Value<A>]) -> Option<EventId>
        ensures { IsNumberOf self.now (event_with channel fields.now) result }
    {
        let found = self.events.binary_search_by(
            |event: &Event<A>| -> Ordering
                ensures { result ≡ event_cmp (event_of event.now)
                    (event_with channel fields.entry.now) }
            { compared(event, channel, fields) },
        );
        match found {
            Ok(place) => Some(EventId(place as u32)),
            Err(_) => None,
        }
    }
}
