//! Renamings, evaluated once.

ghost use Rattle.std.specs.Prelude.{◌≡◌, ◌&&◌, ◌++◌, IfOk, OnOk, map, nat_eq};
ghost use Rattle.std.specs.List.{flat_map};
ghost use Rattle.std.specs.Ordering.{is_lt, nat_cmp};
ghost use Rattle.theory_syntax.specs.Value.{event_cmp, event_eq};
ghost use Rattle.theory_semantics.specs.Meaning.Events.{channel_images, event_images, is_bare, or_itself, pair_images, renaming, same_sets};
ghost use Rattle.csp_value.specs.Action.{event_of};
ghost use Rattle.csp_events.specs.Events.{event_expression_of, renaming_pair_of, renaming_pairs_of};
ghost use Rattle.csp_events.specs.Channels.{declaring};
ghost use Rattle.csp_value.specs.Fields.{sets_of};
ghost use Rattle.csp_events.specs.Imaging.{ChannelsRise, EventsRise, MakesMore, IsImagesOf, PairsRise, channel_image, event_image, found_images};

use crate::channel::Channel;
use crate::event_expression::EventExpression;
use crate::event_test::{field_sets, whole_event};
use crate::renaming_pair::RenamingPair;
use csp_expression::{Cause, NoValue, TypeTable};
use csp_value::{AllocHandle, ChannelId, Event, FieldSet, Memory};

/// What a renaming makes of events. Both lists rise by what they name, so that it is found by halving.
#[derive(Drop)]
pub struct Images<A: AllocHandle> {
    /// Each event of the first channel becomes the one of the second with its fields.
    pub(crate) channels: Vec<(ChannelId, ChannelId), A>,
    /// The first event becomes the second.
    pub(crate) events: Vec<(Event<A>, Event<A>), A>,
}

fn is_bare<A: AllocHandle>(written: &EventExpression<A>) -> bool
    ensures { result ≡ is_bare (event_expression_of written.now) }
{
    written.fields.is_empty()
}

/// Whether the pair names channels, so that each event of the first is renamed.
pub fn are_channels<A: AllocHandle>(pair: &RenamingPair<A>) -> bool
    ensures { result ≡ is_bare (event_expression_of pair.now.from)
        && is_bare (event_expression_of pair.now.to) }
{
    is_bare(&pair.from) && is_bare(&pair.to)
}

/// Whether the lists have the same field sets, in the same order.
pub fn same_sets<A: AllocHandle>(sets: &[FieldSet<A>], others: &[FieldSet<A>]) -> bool
    ensures { result ≡ same_sets (sets_of sets.now) (sets_of others.now) }
{
    *sets == *others
}

/// Whether the pair names the event.
fn names_channel<A: AllocHandle>(pair: &(ChannelId, ChannelId), event: &Event<A>) -> bool
    ensures { result ≡ nat_eq event.now.channel.0 pair.now.0.0 }
{
    event.channel == pair.0
}

/// The event with its fields on the other channel.
pub(crate) fn on_channel<A: AllocHandle>(
    alloc: A,
    pair: &(ChannelId, ChannelId),
    event: &Event<A>,
) -> Result<Event<A>, Memory>
    ensures { IfOk result (λ image. event_of image
        ≡ record { channel = pair.now.1.0; fields = (event_of event.now).fields }) }
{
    let mut image = event.try_copy(alloc)?;
    image.channel = pair.1;
    Ok(image)
}

/// Whether the pair names a lesser event.
fn precedes<A: AllocHandle>(pair: &(Event<A>, Event<A>), event: &Event<A>) -> bool
    ensures { result ≡ is_lt (event_cmp (event_of pair.now.0) (event_of event.now)) }
{
    pair.0.cmp(event).is_lt()
}

/// Whether the pair names the event.
fn names_event<A: AllocHandle>(pair: &(Event<A>, Event<A>), event: &Event<A>) -> bool
    ensures { result ≡ event_eq (event_of event.now) (event_of pair.now.0) }
{
    event.cmp(&pair.0).is_eq()
}

/// What the pair makes of the event that it names.
fn second<A: AllocHandle>(alloc: A, pair: &(Event<A>, Event<A>)) -> Result<Event<A>, Memory>
    ensures { IfOk result (λ image. event_of image ≡ event_of pair.now.1) }
{
    pair.1.try_copy(alloc)
}

impl<A: AllocHandle> Images<A> {
    fn add_events(
        &mut self,
        alloc: A,
        types: &TypeTable<A>,
        channels: &[Channel<A>],
        pair: &RenamingPair<A>,
    ) -> Result<(), NoValue>
        ensures { MakesMore self.old (event_images (declaring types.now channels.now)
            (event_expression_of pair.now.from) (event_expression_of pair.now.to)) result self.new }
    {
        let from = whole_event(alloc, types, channels, &pair.from)?;
        let to = whole_event(alloc, types, channels, &pair.to)?;
        self.events.push((from, to))?;
        Ok(())
    }

    fn add_channels(
        &mut self,
        channels: &[Channel<A>],
        from: ChannelId,
        to: ChannelId,
    ) -> Result<(), NoValue>
        ensures { (types : TypeTable A) → MakesMore self.old
            (channel_images (declaring types channels.now) from.0 to.0) result self.new }
    {
        let sets = field_sets(channels, from)?;
        let others = field_sets(channels, to)?;
        if !same_sets(sets, others) {
            return Err(NoValue::Cause(Cause::Kind));
        }
        self.channels.push((from, to))?;
        Ok(())
    }

    /// Adds what one pair names.
    fn add_pair(
        &mut self,
        alloc: A,
        types: &TypeTable<A>,
        channels: &[Channel<A>],
        pair: &RenamingPair<A>,
    ) -> Result<(), NoValue>
        ensures { MakesMore self.old (pair_images (declaring types.now channels.now)
            (renaming_pair_of pair.now)) result self.new }
    {
        if are_channels(pair) {
            self.add_channels(channels, pair.from.channel, pair.to.channel)
        } else {
            self.add_events(alloc, types, channels, pair)
        }
    }

    /// What the pairs make of events: `Cause` has the first cause for which that is nothing, and `Memory`
    /// says that there is no room for it.
    pub fn of(
        alloc: A,
        types: &TypeTable<A>,
        channels: &[Channel<A>],
        pairs: &[RenamingPair<A>],
    ) -> Result<Images<A>, NoValue>
        ensures { IsImagesOf result (renaming (declaring types.now channels.now)
            (renaming_pairs_of pairs.now)) }
    {
        let mut images = Images {
            channels: Vec::new(alloc),
            events: Vec::new(alloc),
        };
        for pair in pairs {
            images.add_pair(alloc, types, channels, pair)?;
        }
        images.channels.sort_unstable();
        images.events.sort_unstable();
        Ok(images)
    }

    pub(crate) fn add_by_channels(
        &self,
        alloc: A,
        event: &Event<A>,
        found: &mut Vec<Event<A>, A>,
    ) -> Result<(), Memory>
        requires { ChannelsRise self.now.channels.items }
        ensures { OnOk result (map event_of found.new.items
            ≡ map event_of found.old.items ++ flat_map (channel_image (event_of event.now))
            self.now.channels.items) }
    {
        let first = self.channels.partition_point(
            |pair: &(ChannelId, ChannelId)| -> bool
                ensures { result ≡ is_lt (nat_cmp pair.now.0.0 event.entry.now.channel.0) }
            { pair.0 < event.channel },
        );
        for pair in &self.channels[first..] {
            if !names_channel(pair, event) {
                return Ok(());
            }
            found.push(on_channel(alloc, pair, event)?)?;
        }
        Ok(())
    }

    pub(crate) fn add_by_events(
        &self,
        alloc: A,
        event: &Event<A>,
        found: &mut Vec<Event<A>, A>,
    ) -> Result<(), Memory>
        requires { EventsRise self.now.events.items }
        ensures { OnOk result (map event_of found.new.items
            ≡ map event_of found.old.items ++ flat_map (event_image (event_of event.now))
            self.now.events.items) }
    {
        let first = self.events.partition_point(
            |pair: &(Event<A>, Event<A>)| -> bool
                ensures { result
                    ≡ is_lt (event_cmp (event_of pair.now.0) (event_of event.entry.now)) }
            { precedes(pair, event) },
        );
        for pair in &self.events[first..] {
            if !names_event(pair, event) {
                return Ok(());
            }
            found.push(second(alloc, pair)?)?;
        }
        Ok(())
    }

    /// The images of the event, which is its own where no pair names it; or `Memory` where there is no room for them.
    pub fn of_event(&self, alloc: A, event: Event<A>) -> Result<Vec<Event<A>, A>, Memory>
        requires { PairsRise self.now }
        ensures { IfOk result (λ found. map event_of found.items
            ≡ or_itself (event_of event) (found_images self.now (event_of event))) }
    {
        let mut found = Vec::new(alloc);
        self.add_by_channels(alloc, &event, &mut found)?;
        self.add_by_events(alloc, &event, &mut found)?;
        if !found.is_empty() {
            return Ok(found);
        }
        found.push(event)?;
        Ok(found)
    }
}
