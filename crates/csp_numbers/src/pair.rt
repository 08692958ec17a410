//! The pairs of a renaming, by the numbers of events.

ghost use Rattle.std.specs.Prelude.{◌≡◌, Some, nat_eq, slice_get};
ghost use Rattle.theory_syntax.specs.Value.{event_cmp};
ghost use Rattle.theory_semantics.specs.Meaning.Offers.{RisesBy};
ghost use Rattle.theory_semantics.specs.Meaning.Events.{channel_images, event_images, pair_images};
ghost use Rattle.theory_shapes.specs.Alphabet.{alphabet as events_of_script};
ghost use Rattle.csp_value.specs.Action.{event_of};
ghost use Rattle.csp_events.specs.Events.{event_expression_of, renaming_pair_of};
ghost use Rattle.csp_term.specs.Script.{script_of_parts};
ghost use Rattle.csp_numbers.specs.Pairs.{IsPairOf};

use crate::alphabet::Alphabet;
use crate::written_event::number_of;
use csp_events::{RenamingPair, are_channels, same_sets};
use csp_expression::NoValue;
use csp_rows::EventId;
use csp_term::{AllocHandle, Cause, ChannelId, Event, ScriptParts};

/// A pair of a renaming, evaluated.
#[derive(Clone, Copy)]
pub(crate) enum Pair {
    /// Each event of the first channel is done as the one of the second with its fields.
    Channels(ChannelId, ChannelId),
    /// The first event is done as the second.
    Events(EventId, EventId),
}

/// The pair of two channels, or the cause for which there is none: both have the same field sets.
fn pair_of_channels<A: AllocHandle>(
    script: &ScriptParts<A>,
    from: ChannelId,
    to: ChannelId,
) -> Result<Pair, NoValue>
    ensures { IsPairOf (events_of_script (script_of_parts script.now)) result
        (channel_images (script_of_parts script.now) from.0 to.0) }
{
    let sets = script.field_sets(from)?;
    let others = script.field_sets(to)?;
    if same_sets(sets, others) {
        Ok(Pair::Channels(from, to))
    } else {
        Err(NoValue::Cause(Cause::Kind))
    }
}

/// The pair of two events, or the first cause for which there is none.
fn pair_of_events<A: AllocHandle>(
    alloc: A,
    alphabet: &Alphabet<A>,
    script: &ScriptParts<A>,
    pair: &RenamingPair<A>,
) -> Result<Pair, NoValue>
    requires { alphabet.now ≡ events_of_script (script_of_parts script.now) }
    ensures { IsPairOf alphabet.now result
        (event_images (script_of_parts script.now) (event_expression_of pair.now.from)
        (event_expression_of pair.now.to)) }
{
    let from = number_of(alloc, alphabet, script, &pair.from)?;
    let to = number_of(alloc, alphabet, script, &pair.to)?;
    Ok(Pair::Events(from, to))
}

/// What the pair names, or the first cause for which that is nothing.
pub(crate) fn pair_of<A: AllocHandle>(
    alloc: A,
    alphabet: &Alphabet<A>,
    script: &ScriptParts<A>,
    pair: &RenamingPair<A>,
) -> Result<Pair, NoValue>
    requires { alphabet.now ≡ events_of_script (script_of_parts script.now) }
    ensures { IsPairOf alphabet.now result
        (pair_images (script_of_parts script.now) (renaming_pair_of pair.now)) }
{
    if are_channels(pair) {
        pair_of_channels(script, pair.from.channel, pair.to.channel)
    } else {
        pair_of_events(alloc, alphabet, script, pair)
    }
}

/// Whether the event is of the channel.
fn is_on<A: AllocHandle>(event: &Event<A>, channel: ChannelId) -> bool
    ensures { result ≡ nat_eq event.now.channel.0 channel.0 }
{
    event.channel == channel
}

/// Whether the numbers are the same.
fn are_same(number: EventId, other: EventId) -> bool
    ensures { result ≡ nat_eq number.0 other.0 }
{
    number == other
}

impl Pair {
    ghost use Rattle.csp_numbers.specs.Pairs.{IsImage, IsPlaced, image_by};

    /// The number of the image that the pair gives the event of this number, if it names that.
    pub(crate) fn image<A: AllocHandle>(
        self,
        alphabet: &Alphabet<A>,
        number: EventId,
        event: &Event<A>,
    ) -> Option<EventId>
        requires rising { RisesBy event_cmp alphabet.now }
        requires numbered { slice_get alphabet.now number.0 ≡ Some (event_of event.now) }
        requires placed { IsPlaced alphabet.now self }
        ensures { IsImage alphabet.now (image_by alphabet.now (event_of event.now) self) result }
    {
        match self {
            Pair::Channels(from, to) => {
                if is_on(event, from) {
                    alphabet.number_with(to, &event.fields)
                } else {
                    None
                }
            }
            Pair::Events(from, to) => {
                if are_same(number, from) {
                    Some(to)
                } else {
                    None
                }
            }
        }
    }
}
