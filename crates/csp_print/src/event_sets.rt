//! The texts of events, of sets of events and of renamings.

ghost use Rattle.std.specs.Prelude.{◌≡◌, codes};
ghost use Rattle.theory_syntax.specs.Operators.{combined};
ghost use Rattle.csp_events.specs.Events.{event_expression_of, event_expressions_of, event_set_of, renaming_pair_of, renaming_pairs_of};
ghost use Rattle.theory_notation.specs.EventSets.{event_set_text, event_text, events_behind, events_text, pair_text, pairs_behind, pairs_text};
ghost use Rattle.csp_print.specs.EventSets.{operator_text};
ghost use Rattle.csp_print.specs.Names.{names_of};
ghost use Rattle.csp_print.specs.Writing.{Writes};

use crate::marks::push_mark;
use crate::names::Names;
use crate::ranks::ATOM;
use crate::told::push_told_behind;
use csp_events::{EventExpression, EventSet, EventSetOperator, RenamingPair};
use std::alloc::{AllocError, Allocator};

/// Puts the text of the set of events behind the string. It is an error where memory is refused.
#[cycle(event_set)]
pub fn push_event_set<A: Allocator + Copy>(
    names: &Names<'_, A>,
    set: &EventSet<A>,
    text: &mut String<A>,
) -> Result<(), AllocError>
    ensures { Writes result text.old text.new
        (event_set_text (names_of names.now) (event_set_of set.now)) }
{
    match set {
        EventSet::Enumeration(events) => {
            push_mark("{", text)?;
            push_events(names, events.as_slice(), text)?;
            push_mark("}", text)
        }
        EventSet::Productions(events) => {
            push_mark("{|", text)?;
            push_events(names, events.as_slice(), text)?;
            push_mark("|}", text)
        }
        EventSet::Combine(operator, left, right) => {
            push_combined(names, *operator, left, right, text)
        }
    }
}

#[cycle(event_set)]
fn push_combined<A: Allocator + Copy>(
    names: &Names<'_, A>,
    operator: EventSetOperator,
    left: &EventSet<A>,
    right: &EventSet<A>,
    text: &mut String<A>,
) -> Result<(), AllocError>
    ensures { Writes result text.old text.new
        (event_set_text (names_of names.now)
        (combined operator (event_set_of left.now) (event_set_of right.now))) }
{
    push_mark(text_before(operator), text)?;
    push_event_set(names, left, text)?;
    push_mark(", ", text)?;
    push_event_set(names, right, text)?;
    push_mark(")", text)
}

// What stands before both operands.
fn text_before(operator: EventSetOperator) -> &'static str
    ensures { result.now ≡ operator_text operator }
{
    match operator {
        EventSetOperator::Union => "union(",
        EventSetOperator::Intersection => "inter(",
        EventSetOperator::Difference => "diff(",
    }
}

// The channel, with `.` before each field, which is an atom.
fn push_event<A: Allocator + Copy>(
    names: &Names<'_, A>,
    event: &EventExpression<A>,
    text: &mut String<A>,
) -> Result<(), AllocError>
    ensures { Writes result text.old text.new
        (event_text (names_of names.now) (event_expression_of event.now)) }
{
    names.push_channel(event.channel, text)?;
    push_told_behind(names, ".", ATOM, event.fields.as_slice(), text)
}

// The events with `,` between.
fn push_events<A: Allocator + Copy>(
    names: &Names<'_, A>,
    events: &[EventExpression<A>],
    text: &mut String<A>,
) -> Result<(), AllocError>
    ensures { Writes result text.old text.new
        (events_text (names_of names.now) (event_expressions_of events.now)) }
{
    match events.split_first() {
        Some((first, others)) => {
            push_event(names, first, text)?;
            push_events_behind(names, others, text)
        }
        None => Ok(()),
    }
}

// The events with `,` before each.
fn push_events_behind<A: Allocator + Copy>(
    names: &Names<'_, A>,
    events: &[EventExpression<A>],
    text: &mut String<A>,
) -> Result<(), AllocError>
    ensures { Writes result text.old text.new
        (events_behind (names_of names.now) (event_expressions_of events.now)) }
{
    for event in events {
        push_mark(", ", text)?;
        push_event(names, event, text)?;
    }
    Ok(())
}

/// The pairs with `,` between.
pub(crate) fn push_pairs<A: Allocator + Copy>(
    names: &Names<'_, A>,
    pairs: &[RenamingPair<A>],
    text: &mut String<A>,
) -> Result<(), AllocError>
    ensures { Writes result text.old text.new
        (pairs_text (names_of names.now) (renaming_pairs_of pairs.now)) }
{
    match pairs.split_first() {
        Some((first, others)) => {
            push_pair(names, first, text)?;
            push_pairs_behind(names, others, text)
        }
        None => Ok(()),
    }
}

// The pairs with `,` before each.
fn push_pairs_behind<A: Allocator + Copy>(
    names: &Names<'_, A>,
    pairs: &[RenamingPair<A>],
    text: &mut String<A>,
) -> Result<(), AllocError>
    ensures { Writes result text.old text.new
        (pairs_behind (names_of names.now) (renaming_pairs_of pairs.now)) }
{
    for pair in pairs {
        push_mark(", ", text)?;
        push_pair(names, pair, text)?;
    }
    Ok(())
}

fn push_pair<A: Allocator + Copy>(
    names: &Names<'_, A>,
    pair: &RenamingPair<A>,
    text: &mut String<A>,
) -> Result<(), AllocError>
    ensures { Writes result text.old text.new
        (pair_text (names_of names.now) (renaming_pair_of pair.now)) }
{
    push_event(names, &pair.from, text)?;
    push_mark(" <- ", text)?;
    push_event(names, &pair.to, text)
}
