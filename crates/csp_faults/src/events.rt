//! What is to blame in events, and in sets of them.

ghost use Rattle.std.specs.Prelude.{◌≡◌};
ghost use Rattle.theory_syntax.specs.Process.{Enumeration, Productions};
ghost use Rattle.theory_semantics.specs.Meaning.Events.{field_sets};
ghost use Rattle.theory_faults.specs.Culprit.{first_found, over_sets};
ghost use Rattle.theory_faults.specs.Events.{beginning_culprit, count_misfit, event_culprit, event_set_culprit};
ghost use Rattle.csp_events.specs.Events.{event_expression_of, event_expressions_of, event_set_of};
ghost use Rattle.csp_term.specs.Script.{script_of_parts};
ghost use Rattle.csp_faults.specs.Culprit.{Finds, found_of};

use crate::culprit::{Culprit, Owner};
use crate::declared::channel_sets;
use crate::expressions::given_culprit;
use csp_events::{EventExpression, EventSet};
use csp_term::{AllocHandle, Memory, ScriptParts};

/// What is to blame in the set. `Memory` says nothing of it.
#[cycle(event_set)]
pub(crate) fn event_set_culprit<A: AllocHandle>(
    alloc: A,
    script: &ScriptParts<A>,
    set: &EventSet<A>,
) -> Result<Option<Culprit<A>>, Memory>
    ensures { Finds result (event_set_culprit (script_of_parts script.now) (event_set_of set.now)) }
{
    match set {
        EventSet::Enumeration(events) => enumeration_culprit(alloc, script, events),
        EventSet::Productions(beginnings) => productions_culprit(alloc, script, beginnings),
        EventSet::Combine(_, left, right) => {
            let found = event_set_culprit(alloc, script, left)?;
            match found {
                Some(culprit) => Ok(Some(culprit)),
                None => event_set_culprit(alloc, script, right),
            }
        }
    }
}

/// What is to blame in the first of the events in which something is.
fn enumeration_culprit<A: AllocHandle>(
    alloc: A,
    script: &ScriptParts<A>,
    events: &[EventExpression<A>],
) -> Result<Option<Culprit<A>>, Memory>
    ensures { Finds result (event_set_culprit (script_of_parts script.now)
        (Enumeration (event_expressions_of events.now))) }
{
    for event in events {
        let found = event_culprit(alloc, script, event)?;
        if found.is_some() {
            return Ok(found);
        }
    }
    Ok(None)
}

/// What is to blame in the first of the beginnings of events in which something is.
fn productions_culprit<A: AllocHandle>(
    alloc: A,
    script: &ScriptParts<A>,
    beginnings: &[EventExpression<A>],
) -> Result<Option<Culprit<A>>, Memory>
    ensures { Finds result (event_set_culprit (script_of_parts script.now)
        (Productions (event_expressions_of beginnings.now))) }
{
    for beginning in beginnings {
        let found = beginning_culprit(alloc, script, beginning)?;
        if found.is_some() {
            return Ok(found);
        }
    }
    Ok(None)
}

/// What is to blame in the event.
pub(crate) fn event_culprit<A: AllocHandle>(
    alloc: A,
    script: &ScriptParts<A>,
    event: &EventExpression<A>,
) -> Result<Option<Culprit<A>>, Memory>
    ensures { Finds result (event_culprit (script_of_parts script.now)
        (event_expression_of event.now)) }
{
    let found = beginning_culprit(alloc, script, event)?;
    if found.is_some() {
        return Ok(found);
    }
    Ok(count_misfit(script, event))
}

/// What is to blame in the first fields of an event.
fn beginning_culprit<A: AllocHandle>(
    alloc: A,
    script: &ScriptParts<A>,
    beginning: &EventExpression<A>,
) -> Result<Option<Culprit<A>>, Memory>
    ensures { Finds result (beginning_culprit (script_of_parts script.now)
        (event_expression_of beginning.now)) }
{
    let channel = beginning.channel;
    match channel_sets(script, channel) {
        Some(sets) => {
            let owner = Owner::Channel(channel);
            given_culprit(alloc, &script.types, owner, &beginning.fields, sets)
        }
        None => Ok(Some(Culprit::Misfit)),
    }
}

/// That the event has another number of fields than its channel.
fn count_misfit<A: AllocHandle>(
    script: &ScriptParts<A>,
    event: &EventExpression<A>,
) -> Option<Culprit<A>>
    ensures { found_of result
        ≡ over_sets (field_sets (script_of_parts script.now) event.now.channel.0)
        (count_misfit (event_expression_of event.now)) }
{
    let Some(sets) = channel_sets(script, event.channel) else {
        return Some(Culprit::Misfit);
    };
    if event.fields.len() == sets.len() {
        None
    } else {
        Some(Culprit::Misfit)
    }
}
