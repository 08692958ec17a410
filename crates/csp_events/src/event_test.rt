//! Sets of events, evaluated once.

ghost use Rattle.std.specs.Prelude.{◌≡◌, map};
ghost use Rattle.std.specs.List.{list_any};
ghost use Rattle.std.specs.List.Sorted.{IsSortedBy};
ghost use Rattle.std.specs.Ordering.{is_lt};
ghost use Rattle.theory_syntax.specs.Value.{event_cmp, event_eq};
ghost use Rattle.theory_syntax.specs.Process.{Enumeration, Productions};
ghost use Rattle.theory_syntax.specs.Expression.{to_expressions};
ghost use Rattle.theory_semantics.specs.Meaning.Evaluation.{given_values};
ghost use Rattle.theory_semantics.specs.Meaning.Events.{begins_with, beginning_of, event_of as written_event, event_test, field_sets};
ghost use Rattle.csp_value.specs.Action.{event_of};
ghost use Rattle.csp_expression.specs.Evaluation.{table_of};
ghost use Rattle.csp_expression.specs.Expression.{expressions_of};
ghost use Rattle.csp_events.specs.Events.{event_expression_of, event_expressions_of, event_set_of};
ghost use Rattle.csp_value.specs.Fields.{sets_of};
ghost use Rattle.csp_events.specs.Channels.{declaring};
ghost use Rattle.csp_events.specs.Testing.{AreGivenBy, AreSetsOf, AreSorted, IsBoxedTestOf, IsEventOf, IsTestOf, event_with, listed_in, test_of};

use crate::channel::Channel;
use crate::event_expression::EventExpression;
use crate::event_set::EventSet;
use csp_expression::{Cause, Expr, NoValue, TypeTable};
use csp_value::{AllocHandle, ChannelId, Event, FieldSet, Memory, Value};
use smallvec::SmallVec;
use std::cmp::Ordering;
use theory_syntax::EventSetOperator;

/// Which events a set holds.
#[derive(Drop)]
pub enum EventTest<A: AllocHandle> {
    /// These events, which rise, so that one is found by halving.
    Events(Vec<Event<A>, A>),
    /// The events that begin with one of these: its channel and its fields, and whatever fields behind. They rise too.
    Beginnings(Vec<Event<A>, A>),
    /// An operator with the tests of its left and its right operand.
    Combine(EventSetOperator, Box<EventTest<A>, A>, Box<EventTest<A>, A>),
}

/// The field sets of the channel, or the cause where there is none such.
pub fn field_sets<A: AllocHandle>(
    channels: &[Channel<A>],
    channel: ChannelId,
) -> Result<&[FieldSet<A>], NoValue>
    ensures { (types : TypeTable A) → AreSetsOf result
        (field_sets (declaring types channels.now) channel.0) }
{
    match channels.get(channel.0 as usize) {
        Some(declared) => Ok(&declared.fields),
        None => Err(NoValue::Cause(Cause::Kind)),
    }
}

/// The values of the fields, each evaluated and then compared with its set.
fn given_values<A: AllocHandle>(
    alloc: A,
    types: &TypeTable<A>,
    fields: &[Expr<A>],
    sets: &[FieldSet<A>],
) -> Result<SmallVec<Value<A>, 2, A>, NoValue>
    ensures { AreGivenBy result (given_values (table_of types.now)
        (to_expressions (expressions_of fields.now)) (sets_of sets.now)) }
{
    let mut values = SmallVec::new(alloc);
    for (place, field) in fields.iter().enumerate() {
        let Some(set) = sets.get(place) else {
            return Err(NoValue::Cause(Cause::Kind));
        };
        values.push(field.find_within(alloc, types, set)?)?;
    }
    Ok(values)
}

/// The channel with the values of its first fields.
fn beginning<A: AllocHandle>(
    alloc: A,
    types: &TypeTable<A>,
    channels: &[Channel<A>],
    written: &EventExpression<A>,
) -> Result<Event<A>, NoValue>
    ensures { IsEventOf result (beginning_of (declaring types.now channels.now)
        (event_expression_of written.now)) }
{
    let channel = written.channel;
    let sets = field_sets(channels, channel)?;
    let fields = given_values(alloc, types, &written.fields, sets)?;
    Ok(Event { channel, fields })
}

/// The event that is written, with all its fields, or the first cause for which there is none.
pub fn whole_event<A: AllocHandle>(
    alloc: A,
    types: &TypeTable<A>,
    channels: &[Channel<A>],
    written: &EventExpression<A>,
) -> Result<Event<A>, NoValue>
    ensures { IsEventOf result (written_event (declaring types.now channels.now)
        (event_expression_of written.now)) }
{
    let event = beginning(alloc, types, channels, written)?;
    let sets = field_sets(channels, written.channel)?;
    if event.fields.len() == sets.len() {
        Ok(event)
    } else {
        Err(NoValue::Cause(Cause::Kind))
    }
}

fn events<A: AllocHandle>(
    alloc: A,
    types: &TypeTable<A>,
    channels: &[Channel<A>],
    written: &[EventExpression<A>],
) -> Result<EventTest<A>, NoValue>
    ensures { IsTestOf result (event_test (declaring types.now channels.now)
        (Enumeration (event_expressions_of written.now))) }
{
    let mut events = Vec::new(alloc);
    for event in written {
        events.push(whole_event(alloc, types, channels, event)?)?;
    }
    events.sort_unstable();
    Ok(EventTest::Events(events))
}

fn beginnings<A: AllocHandle>(
    alloc: A,
    types: &TypeTable<A>,
    channels: &[Channel<A>],
    written: &[EventExpression<A>],
) -> Result<EventTest<A>, NoValue>
    ensures { IsTestOf result (event_test (declaring types.now channels.now)
        (Productions (event_expressions_of written.now))) }
{
    let mut events = Vec::new(alloc);
    for event in written {
        events.push(beginning(alloc, types, channels, event)?)?;
    }
    events.sort_unstable();
    Ok(EventTest::Beginnings(events))
}

#[cycle(event_test)]
fn boxed<A: AllocHandle>(
    alloc: A,
    types: &TypeTable<A>,
    channels: &[Channel<A>],
    set: &EventSet<A>,
) -> Result<Box<EventTest<A>, A>, NoValue>
    ensures { IsBoxedTestOf result (event_test (declaring types.now channels.now)
        (event_set_of set.now)) }
{
    Ok(Box::new(alloc, EventTest::of(alloc, types, channels, set)?)?)
}

/// Whether the event is one of these, which rise.
fn is_listed<A: AllocHandle>(listed: &[Event<A>], event: &Event<A>) -> bool
    requires { IsSortedBy (λ e f. is_lt (event_cmp (event_of e) (event_of f))) listed.now }
    ensures { result ≡ list_any (event_eq (event_of event.now)) (map event_of listed.now) }
{
    listed.binary_search(event).is_ok()
}

/// The order of the beginning and the channel with these fields.
fn compared<A: AllocHandle>(
    beginning: &Event<A>,
    channel: ChannelId,
    fields: &[Value<A>],
) -> Ordering
    ensures { result ≡ event_cmp (event_of beginning.now) (event_with channel fields.now) }
{
    match beginning.channel.cmp(&channel) {
        Ordering::Equal => beginning.fields.as_slice().cmp(&fields),
        order => order,
    }
}

/// Whether the channel with these fields is one of the beginnings, which rise.
fn is_beginning<A: AllocHandle>(
    beginnings: &[Event<A>],
    channel: ChannelId,
    fields: &[Value<A>],
) -> bool
    requires { IsSortedBy (λ e f. is_lt (event_cmp (event_of e) (event_of f))) beginnings.now }
    ensures { result ≡ list_any (event_eq (event_with channel fields.now))
        (map event_of beginnings.now) }
{
    let found = beginnings.binary_search_by(
        |beginning: &Event<A>| -> Ordering
            ensures { result ≡ event_cmp (event_of beginning.now)
                (event_with channel fields.entry.now) }
        { compared(beginning, channel, fields) },
    );
    found.is_ok()
}

/// Whether the event begins with one of these, which rise. Its channel is looked for by halving with none of its
/// fields, with the first one, and so on: so many searches as it has fields, and one more.
fn is_begun<A: AllocHandle>(beginnings: &[Event<A>], event: &Event<A>) -> bool
    requires { IsSortedBy (λ e f. is_lt (event_cmp (event_of e) (event_of f))) beginnings.now }
    ensures { result ≡ list_any (begins_with (event_of event.now)) (map event_of beginnings.now) }
{
    let fields = event.fields.as_slice();
    for count in 0..fields.len() {
        if is_beginning(beginnings, event.channel, &fields[..count]) {
            return true;
        }
    }
    is_beginning(beginnings, event.channel, fields)
}

impl<A: AllocHandle> EventTest<A> {
    /// The test that the set is: `Cause` has the first cause for which it is none, and `Memory` says that
    /// there is no room for it.
    #[cycle(event_test)]
    pub fn of(
        alloc: A,
        types: &TypeTable<A>,
        channels: &[Channel<A>],
        set: &EventSet<A>,
    ) -> Result<EventTest<A>, NoValue>
        ensures { IsTestOf result (event_test (declaring types.now channels.now)
            (event_set_of set.now)) }
    {
        match set {
            EventSet::Enumeration(written) => events(alloc, types, channels, written),
            EventSet::Productions(written) => beginnings(alloc, types, channels, written),
            EventSet::Combine(operator, left, right) => {
                let left = boxed(alloc, types, channels, left)?;
                let right = boxed(alloc, types, channels, right)?;
                Ok(EventTest::Combine(*operator, left, right))
            }
        }
    }

    /// Whether the event is in the set.
    pub fn holds(&self, event: &Event<A>) -> bool
        requires { AreSorted (listed_in self.now) }
        ensures { result ≡ test_of self.now (event_of event.now) }
    {
        match self {
            EventTest::Events(listed) => is_listed(listed, event),
            EventTest::Beginnings(beginnings) => is_begun(beginnings, event),
            EventTest::Combine(operator, left, right) => match operator {
                EventSetOperator::Union => left.holds(event) || right.holds(event),
                EventSetOperator::Intersection => left.holds(event) && right.holds(event),
                EventSetOperator::Difference => left.holds(event) && !right.holds(event),
            },
        }
    }
}
