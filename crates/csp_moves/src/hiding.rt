//! The ways of `P \ S`.

ghost use Rattle.std.specs.Prelude.{◌≡◌, ◌∷◌, IfOk, Some, map};
ghost use Rattle.theory_syntax.specs.Process.{Hiding};
ghost use Rattle.theory_syntax.specs.Value.{Ev, Tau, Tick};
ghost use Rattle.csp_value.specs.Action.{event_of};
ghost use Rattle.csp_events.specs.Events.{event_set_of};
ghost use Rattle.csp_term.specs.Script.{script_of_parts};
ghost use Rattle.csp_term.specs.Term.{process_of};
ghost use Rattle.theory_origins.specs.Origin.{Hides, InBody};
ghost use Rattle.theory_origins.specs.Ways.{Through, part};
ghost use Rattle.csp_moves.specs.Bodies.{AreHiddenEvents};
ghost use Rattle.csp_moves.specs.Way.{AreFound, AreFoundIn, lent_action, ways_of};

use crate::frame::{Frame, body_of, to_body};
use crate::passing::{Passing, events_to};
use crate::tested::test_of_set;
use crate::way::{LentAction, LentPassage, Part, Way, no_ways, one_way};
use csp_events::EventSet;
use csp_term::{AllocHandle, Event, Memory, ScriptParts, Term};

/// A process and the set of the events that are hidden in it.
#[derive(Clone, Copy)]
pub struct Hidden<'t, A: AllocHandle> {
    /// The process.
    pub body: &'t Term<A>,
    /// The events that no one sees.
    pub events: &'t EventSet<A>,
}

/// The hidden events by which the body leads to what the target hides them in, where the step is a tau. `Memory` says
/// that there is no room for them.
pub fn hidden_events<A: AllocHandle>(
    alloc: A,
    script: &ScriptParts<A>,
    process: Hidden<'_, A>,
    action: LentAction<'_, A>,
    target: &Term<A>,
) -> Result<Vec<Event<A>, A>, Memory>
    ensures { IfOk result (λ events. AreHiddenEvents (script_of_parts script.now)
        (process_of process.entry.body.now) (event_set_of process.entry.events.now)
        (lent_action action.entry) (process_of target.now) (map event_of events.items)) }
{
    match action {
        LentAction::Tau => hidden_to(alloc, script, process, target),
        LentAction::Tick => Ok(Vec::new(alloc)),
        LentAction::Event(_) => Ok(Vec::new(alloc)),
    }
}

fn hidden_to<A: AllocHandle>(
    alloc: A,
    script: &ScriptParts<A>,
    process: Hidden<'_, A>,
    target: &Term<A>,
) -> Result<Vec<Event<A>, A>, Memory>
    ensures { IfOk result (λ events. AreHiddenEvents (script_of_parts script.now)
        (process_of process.entry.body.now) (event_set_of process.entry.events.now) Tau
        (process_of target.now) (map event_of events.items)) }
{
    let frame = Frame::Hiding(process.events);
    let Some(body_target) = body_of(&frame, target) else {
        return Ok(Vec::new(alloc));
    };
    let found = test_of_set(alloc, script, process.events)?;
    let Some(test) = found else {
        return Ok(Vec::new(alloc));
    };
    let passing = Passing::Hidden(test);
    let events = events_to(alloc, script, &passing, process.body, body_target);
    drop(passing);
    events
}

/// The ways in which `P \ S` may do the step, by these events if it is a tau. `Memory` says that there is no room for
/// them.
pub fn hiding_ways<'t, A: AllocHandle>(
    alloc: A,
    script: &ScriptParts<A>,
    process: Hidden<'t, A>,
    events: &'t [Event<A>],
    action: LentAction<'t, A>,
    target: &'t Term<A>,
) -> Result<Vec<Way<'t, A>, A>, Memory>
    requires { AreHiddenEvents (script_of_parts script.now) (process_of process.body.now)
        (event_set_of process.events.now) (lent_action action) (process_of target.now)
        (map event_of events.now) }
    ensures { IfOk result (AreFoundIn (script_of_parts script.now)
        (Hiding (process_of process.entry.body.now) (event_set_of process.entry.events.now))
        (lent_action action.entry) (process_of target.now)) }
{
    match action {
        LentAction::Tau => by_tau(alloc, script, process, events, target),
        LentAction::Tick => by_tick(alloc, process, target),
        LentAction::Event(event) => by_event(alloc, script, process, event, target),
    }
}

/// A tau of the body stays under the operator, and a hidden event of it becomes one.
fn by_tau<'t, A: AllocHandle>(
    alloc: A,
    script: &ScriptParts<A>,
    process: Hidden<'t, A>,
    events: &'t [Event<A>],
    target: &'t Term<A>,
) -> Result<Vec<Way<'t, A>, A>, Memory>
    requires { AreHiddenEvents (script_of_parts script.now) (process_of process.body.now)
        (event_set_of process.events.now) Tau (process_of target.now) (map event_of events.now) }
    ensures { IfOk result (AreFoundIn (script_of_parts script.now)
        (Hiding (process_of process.entry.body.now) (event_set_of process.entry.events.now)) Tau
        (process_of target.now)) }
{
    let found = test_of_set(alloc, script, process.events)?;
    let Some(test) = found else {
        return no_ways(alloc);
    };
    drop(test);
    let frame = Frame::Hiding(process.events);
    let Some(body_target) = body_of(&frame, target) else {
        return no_ways(alloc);
    };
    through_hidden(alloc, process.body, events, body_target)
}

/// The ways through the body to the target, by tau and by each of the events.
fn through_hidden<'t, A: AllocHandle>(
    alloc: A,
    body: &'t Term<A>,
    events: &'t [Event<A>],
    target: &'t Term<A>,
) -> Result<Vec<Way<'t, A>, A>, Memory>
    ensures { IfOk result (λ ways. ways_of ways ≡ Through InBody
        (part (process_of body.now) Tau (Some (process_of target.now)))
        ∷ map (λ e. Through (Hides e)
        (part (process_of body.now) (Ev e) (Some (process_of target.now))))
        (map event_of events.now)) }
{
    let mut ways = one_way(alloc, to_body(body, LentAction::Tau, Some(target)))?;
    for event in events {
        let part = Part {
            process: body,
            action: LentAction::Event(event),
            target: Some(target),
        };
        ways.push(Way::Through(LentPassage::Hides(event), part))?;
    }
    Ok(ways)
}

/// The end of the body is that of the whole.
fn by_tick<'t, A: AllocHandle>(
    alloc: A,
    process: Hidden<'t, A>,
    target: &'t Term<A>,
) -> Result<Vec<Way<'t, A>, A>, Memory>
    ensures { IfOk result (AreFound (Hiding (process_of process.entry.body.now)
        (event_set_of process.entry.events.now)) Tick (process_of target.now)) }
{
    one_way(alloc, to_body(process.body, LentAction::Tick, Some(target)))
}

/// An event that is not hidden stays under the operator.
fn by_event<'t, A: AllocHandle>(
    alloc: A,
    script: &ScriptParts<A>,
    process: Hidden<'t, A>,
    event: &'t Event<A>,
    target: &'t Term<A>,
) -> Result<Vec<Way<'t, A>, A>, Memory>
    ensures { IfOk result (AreFoundIn (script_of_parts script.now)
        (Hiding (process_of process.entry.body.now) (event_set_of process.entry.events.now))
        (Ev (event_of event.now)) (process_of target.now)) }
{
    let found = test_of_set(alloc, script, process.events)?;
    let Some(test) = found else {
        return no_ways(alloc);
    };
    let is_hidden = test.holds(event);
    drop(test);
    if is_hidden {
        return no_ways(alloc);
    }
    let frame = Frame::Hiding(process.events);
    let body_target = body_of(&frame, target);
    one_way(
        alloc,
        to_body(process.body, LentAction::Event(event), body_target),
    )
}
