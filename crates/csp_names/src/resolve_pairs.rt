//! The pairs of renamings and the names in them.

ghost use Rattle.std.specs.Prelude.{◌≡◌, ◌↔◌, map, option_map, Some, IsTrue};
ghost use Rattle.theory_checking.specs.Sites.{AsBareLeft, AsBareRight, has_no_fields};
ghost use Rattle.csp_parse.specs.Events.{event_of, pair_of};
ghost use Rattle.csp_parse.specs.Names.{name_of};
ghost use Rattle.csp_value.specs.Fields.{field_values};
ghost use Rattle.csp_names.specs.Scopes.{AreUnlike, sets_at};
ghost use Rattle.csp_names.specs.Walks.{AgreesInFields, HasOtherSets, ResolvesBarePair, ResolvesBareRight, ResolvesChannel, ResolvesPair, ResolvesPairs};

use crate::bound_names::BoundNames;
use crate::refusals::{KindFault, Refused};
use crate::scope::Scope;
use csp_events::{EventExpression, RenamingPair};
use csp_parse::{Event as RawEvent, Name as RawName, Pair as RawPair};
use csp_value::{ChannelId, FieldSet};
use std::alloc::Allocator;

impl<'n, 't, A: Allocator + Copy> Scope<'n, 't, A> {
    /// The pairs that are written, or the first fault of a name in one of them.
    pub(crate) fn resolve_pairs(
        &self,
        alloc: A,
        bound: &BoundNames<'t, A>,
        pairs: &[RawPair<'t, A>],
    ) -> Result<Vec<RenamingPair<A>, A>, Refused>
        ensures { ResolvesPairs self.now bound.now (map pair_of pairs.now) result }
    {
        let mut resolved = Vec::new(alloc);
        for pair in pairs {
            let one = self.resolve_pair(alloc, bound, pair)?;
            resolved.push(one)?;
        }
        Ok(resolved)
    }

    fn resolve_pair(
        &self,
        alloc: A,
        bound: &BoundNames<'t, A>,
        pair: &RawPair<'t, A>,
    ) -> Result<RenamingPair<A>, Refused>
        ensures { ResolvesPair self.now bound.now (pair_of pair.now) result }
    {
        if is_bare(&pair.from) && is_bare(&pair.to) {
            self.resolve_bare_pair(alloc, bound, pair.from.channel, pair.to.channel)
        } else {
            let from = self.resolve_event(alloc, bound, &pair.from)?;
            let to = self.resolve_event(alloc, bound, &pair.to)?;
            Ok(RenamingPair { from, to })
        }
    }

    /// The pair of two channels without fields, which stand for all their events.
    fn resolve_bare_pair(
        &self,
        alloc: A,
        bound: &BoundNames<'t, A>,
        from: RawName<'t>,
        to: RawName<'t>,
    ) -> Result<RenamingPair<A>, Refused>
        ensures { ResolvesBarePair self.now bound.now (name_of from.entry) (name_of to.entry)
            result }
    {
        let left = self.resolve_bare_left(bound, from, to)?;
        let right = self.resolve_bare_right(bound, to, from, left)?;
        Ok(RenamingPair {
            from: EventExpression {
                channel: left,
                fields: Vec::new(alloc),
            },
            to: EventExpression {
                channel: right,
                fields: Vec::new(alloc),
            },
        })
    }

    fn resolve_bare_left(
        &self,
        bound: &BoundNames<'t, A>,
        name: RawName<'t>,
        other: RawName<'t>,
    ) -> Result<ChannelId, Refused>
        ensures { ResolvesChannel self.now bound.now (AsBareLeft (name_of other.entry))
            (name_of name.entry) result }
    {
        let channel = self.channel(bound, name)?;
        if self.agree_in_fields(bound, name, other) {
            Ok(channel)
        } else {
            Err(Refused::at(KindFault::WrongCount, name.place))
        }
    }

    fn resolve_bare_right(
        &self,
        bound: &BoundNames<'t, A>,
        name: RawName<'t>,
        other: RawName<'t>,
        left: ChannelId,
    ) -> Result<ChannelId, Refused>
        ensures { ResolvesBareRight self.now bound.now left (name_of other.entry)
            (name_of name.entry) result }
    {
        let channel = self.channel(bound, name)?;
        if !self.agree_in_fields(bound, name, other) {
            Err(Refused::at(KindFault::WrongCount, name.place))
        } else if self.have_other_sets(left, channel) {
            Err(Refused::at(KindFault::WrongKind, name.place))
        } else {
            Ok(channel)
        }
    }

    /// Whether the first channel has no fields, or as many as the second.
    fn agree_in_fields(
        &self,
        bound: &BoundNames<'t, A>,
        name: RawName<'t>,
        other: RawName<'t>,
    ) -> bool
        ensures { AgreesInFields self.now bound.now (name_of name.entry) (name_of other.entry)
            result }
    {
        match self.field_count(bound, name) {
            Some(count) => count == 0 || self.field_count(bound, other) == Some(count),
            None => true,
        }
    }

    /// Whether the field sets of both channels are known, as many, and not equal in turn.
    fn have_other_sets(&self, left: ChannelId, right: ChannelId) -> bool
        ensures { HasOtherSets self.now left right result }
    {
        match (self.known_sets(left), self.known_sets(right)) {
            (Some(left), Some(right)) => are_unlike(left, right),
            _ => false,
        }
    }

    /// The field sets of the channel, if they are known.
    fn known_sets(&self, channel: ChannelId) -> Option<&[FieldSet<A>]>
        ensures { option_map (λ sets. map field_values sets.now) result
            ≡ sets_at self.now channel.0 }
    {
        match self.field_sets.get(channel.0 as usize) {
            Some(Some(sets)) => Some(sets),
            _ => None,
        }
    }
}

/// Whether the event is written without fields.
fn is_bare<'t, A: Allocator>(event: &RawEvent<'t, A>) -> bool
    ensures { result ≡ has_no_fields (event_of event.now) }
{
    event.fields.is_empty()
}

/// Whether both are as many, and not equal in turn.
fn are_unlike<A: Allocator + Copy>(left: &[FieldSet<A>], right: &[FieldSet<A>]) -> bool
    ensures { IsTrue result ↔ AreUnlike (Some (map field_values left.now))
        (Some (map field_values right.now)) }
{
    left.len() == right.len() && left != right
}
