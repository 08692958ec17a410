//! Events, sets of events and renamings at the end of bytes.

ghost use Rattle.std.specs.Prelude.{◌≡◌, ◌++◌, OnOk};
ghost use Rattle.theory_spelling.specs.Spelling.{event_set_spelling, event_spelling, list_spelling, pair_spelling};
ghost use Rattle.theory_spelling.specs.Packable.{IsPackableEvent, IsPackableEventSet, IsPackableList, IsPackablePair};
ghost use Rattle.theory_spelling.specs.Ranges.{IsInRangeEvent, IsInRangeEventSet, IsInRangePair};
ghost use Rattle.std.specs.List.{AllByRecursion};
ghost use Rattle.csp_spell.specs.Tags.{event_set_tag};
ghost use Rattle.csp_events.specs.Events.{event_expression_of, event_expressions_of, event_set_of, renaming_pair_of, renaming_pairs_of};

use crate::expressions::push_expressions;
use crate::numbers::{push_length, push_number};
use csp_events::{EventExpression, EventSet, EventSetOperator, RenamingPair};
use csp_value::Memory;
use std::alloc::Allocator;

/// Puts the spelling of the event at the end.
fn push_event<A: Allocator>(
    event: &EventExpression<A>,
    bytes: &mut Vec<u8, A>,
) -> Result<(), Memory>
    requires { IsPackableEvent (event_expression_of event.now) }
    ensures spelled { OnOk result (bytes.new.items ≡ bytes.old.items
        ++ event_spelling (event_expression_of event.now)) }
    ensures range { OnOk result (IsInRangeEvent (event_expression_of event.now)) }
{
    push_number(event.channel.0, bytes)?;
    push_expressions(&event.fields, bytes)
}

/// Puts the length of the list and the spellings of its events at the end.
fn push_events<A: Allocator>(
    events: &[EventExpression<A>],
    bytes: &mut Vec<u8, A>,
) -> Result<(), Memory>
    requires { IsPackableList IsPackableEvent (event_expressions_of events.now) }
    ensures spelled { OnOk result (bytes.new.items ≡ bytes.old.items
        ++ list_spelling event_spelling (event_expressions_of events.now)) }
    ensures range { OnOk result (AllByRecursion IsInRangeEvent (event_expressions_of events.now)) }
{
    push_length(events.len(), bytes)?;
    for event in events {
        push_event(event, bytes)?;
    }
    Ok(())
}

/// Puts the spelling of the set of events at the end.
pub(crate) fn push_event_set<A: Allocator>(
    set: &EventSet<A>,
    bytes: &mut Vec<u8, A>,
) -> Result<(), Memory>
    requires { IsPackableEventSet (event_set_of set.now) }
    ensures spelled { OnOk result (bytes.new.items ≡ bytes.old.items
        ++ event_set_spelling (event_set_of set.now)) }
    ensures range { OnOk result (IsInRangeEventSet (event_set_of set.now)) }
{
    match set {
        EventSet::Enumeration(events) => {
            bytes.push(0x28)?;
            push_events(events, bytes)
        }
        EventSet::Productions(events) => {
            bytes.push(0x29)?;
            push_events(events, bytes)
        }
        EventSet::Combine(operator, left, right) => {
            bytes.push(event_set_tag(*operator))?;
            push_event_set(left, bytes)?;
            push_event_set(right, bytes)
        }
    }
}

/// The tag of an operator of two sets of events.
fn event_set_tag(operator: EventSetOperator) -> u8
    ensures { result ≡ event_set_tag operator }
{
    match operator {
        EventSetOperator::Union => 0x2a,
        EventSetOperator::Intersection => 0x2b,
        EventSetOperator::Difference => 0x2c,
    }
}

/// Puts the spellings of both sides of the pair at the end.
fn push_pair<A: Allocator>(pair: &RenamingPair<A>, bytes: &mut Vec<u8, A>) -> Result<(), Memory>
    requires { IsPackablePair (renaming_pair_of pair.now) }
    ensures spelled { OnOk result (bytes.new.items ≡ bytes.old.items
        ++ pair_spelling (renaming_pair_of pair.now)) }
    ensures range { OnOk result (IsInRangePair (renaming_pair_of pair.now)) }
{
    push_event(&pair.from, bytes)?;
    push_event(&pair.to, bytes)
}

/// Puts the length of the list and the spellings of its pairs at the end.
pub(crate) fn push_pairs<A: Allocator>(
    pairs: &[RenamingPair<A>],
    bytes: &mut Vec<u8, A>,
) -> Result<(), Memory>
    requires { IsPackableList IsPackablePair (renaming_pairs_of pairs.now) }
    ensures spelled { OnOk result (bytes.new.items ≡ bytes.old.items
        ++ list_spelling pair_spelling (renaming_pairs_of pairs.now)) }
    ensures range { OnOk result (AllByRecursion IsInRangePair (renaming_pairs_of pairs.now)) }
{
    push_length(pairs.len(), bytes)?;
    for pair in pairs {
        push_pair(pair, bytes)?;
    }
    Ok(())
}
