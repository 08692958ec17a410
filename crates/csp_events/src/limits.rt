//! The size and the depth of sets of events and of renamings.

ghost use Rattle.std.specs.Prelude.{◌∷◌, [], ◌≤◌, ◌-◌, ◌↔◌, IsTrue};
ghost use Rattle.std.specs.Option.{SomeIff};
ghost use Rattle.theory_semantics.specs.Meaning.Limits.{event_set_depth, event_set_size, events_depth, events_size, pairs_depth, pairs_size};
ghost use Rattle.csp_events.specs.Events.{event_expression_of, event_expressions_of, event_set_of, renaming_pair_of, renaming_pairs_of};

use crate::event_expression::EventExpression;
use crate::event_set::EventSet;
use crate::renaming_pair::RenamingPair;
use csp_expression::{are_within_depth, room_left_by};
use std::alloc::Allocator;

impl<A: Allocator> EventExpression<A> {
    /// What the event leaves of the room for nodes, `None` where it has more.
    fn room_left(&self, room: u32) -> Option<u32>
        ensures { SomeIff result (events_size (event_expression_of self.now ∷ []) ≤ room)
            (room - events_size (event_expression_of self.now ∷ [])) }
    {
        room_left_by(&self.fields, room.checked_sub(1)?)
    }

    /// Whether the event is at most so deep.
    fn is_within_depth(&self, most: u32) -> bool
        ensures { IsTrue result ↔ (events_depth (event_expression_of self.now ∷ []) ≤ most) }
    {
        most != 0 && are_within_depth(&self.fields, most - 1)
    }
}

impl<A: Allocator> RenamingPair<A> {
    /// What the pair leaves of the room for nodes, `None` where it has more.
    fn room_left(&self, room: u32) -> Option<u32>
        ensures { SomeIff result (pairs_size (renaming_pair_of self.now ∷ []) ≤ room)
            (room - pairs_size (renaming_pair_of self.now ∷ [])) }
    {
        self.to.room_left(self.from.room_left(room)?)
    }

    /// Whether the pair is at most so deep.
    fn is_within_depth(&self, most: u32) -> bool
        ensures { IsTrue result ↔ (pairs_depth (renaming_pair_of self.now ∷ []) ≤ most) }
    {
        self.from.is_within_depth(most) && self.to.is_within_depth(most)
    }
}

impl<A: Allocator> EventSet<A> {
    /// What the set leaves of the room for nodes, `None` where it has more.
    #[tactic(auto, using(crate::proofs::EventMeasures::combined_size))]
    pub fn room_left(&self, room: u32) -> Option<u32>
        ensures { SomeIff result (event_set_size (event_set_of self.now) ≤ room)
            (room - event_set_size (event_set_of self.now)) }
    {
        let rest = room.checked_sub(1)?;
        match self {
            EventSet::Enumeration(events) => room_left_by_events(events, rest),
            EventSet::Productions(events) => room_left_by_events(events, rest),
            EventSet::Combine(_, left, right) => right.room_left(left.room_left(rest)?),
        }
    }

    /// Whether the set is at most so deep.
    #[tactic(auto, using(crate::proofs::EventMeasures::combined_depth))]
    pub fn is_within_depth(&self, most: u32) -> bool
        ensures { IsTrue result ↔ (event_set_depth (event_set_of self.now) ≤ most) }
    {
        if most == 0 {
            return false;
        }
        match self {
            EventSet::Enumeration(events) => are_events_within_depth(events, most - 1),
            EventSet::Productions(events) => are_events_within_depth(events, most - 1),
            EventSet::Combine(_, left, right) => {
                left.is_within_depth(most - 1) && right.is_within_depth(most - 1)
            }
        }
    }
}

/// What the events together leave of the room.
fn room_left_by_events<A: Allocator>(events: &[EventExpression<A>], room: u32) -> Option<u32>
    ensures { SomeIff result (events_size (event_expressions_of events.now) ≤ room)
        (room - events_size (event_expressions_of events.now)) }
{
    let mut rest = room;
    for event in events {
        rest = event.room_left(rest)?;
    }
    Some(rest)
}

/// Whether each of the events is at most so deep.
fn are_events_within_depth<A: Allocator>(events: &[EventExpression<A>], most: u32) -> bool
    ensures { IsTrue result ↔ (events_depth (event_expressions_of events.now) ≤ most) }
{
    for event in events {
        if !event.is_within_depth(most) {
            return false;
        }
    }
    true
}

/// What the pairs together leave of the room.
pub fn room_left_by_pairs<A: Allocator>(pairs: &[RenamingPair<A>], room: u32) -> Option<u32>
    ensures { SomeIff result (pairs_size (renaming_pairs_of pairs.now) ≤ room)
        (room - pairs_size (renaming_pairs_of pairs.now)) }
{
    let mut rest = room;
    for pair in pairs {
        rest = pair.room_left(rest)?;
    }
    Some(rest)
}

/// Whether each of the pairs is at most so deep.
pub fn are_pairs_within_depth<A: Allocator>(pairs: &[RenamingPair<A>], most: u32) -> bool
    ensures { IsTrue result ↔ (pairs_depth (renaming_pairs_of pairs.now) ≤ most) }
{
    for pair in pairs {
        if !pair.is_within_depth(most) {
            return false;
        }
    }
    true
}
