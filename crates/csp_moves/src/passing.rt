//! The events of a body that pass its operator, of those that lead to a target.

ghost use Rattle.std.specs.Prelude.{◌≡◌, ◌++◌, ◌∷◌, ◌↔◌, [], Contains, IfOk, IsTrue, OnOk, map};
ghost use Rattle.std.specs.Option.{option_map};
ghost use Rattle.theory_semantics.specs.Meaning.Events.{or_itself};
ghost use Rattle.csp_value.specs.Action.{event_of};
ghost use Rattle.csp_events.specs.Imaging.{PairsRise, found_images};
ghost use Rattle.csp_term.specs.Script.{script_of_parts};
ghost use Rattle.csp_term.specs.Term.{process_of};
ghost use Rattle.csp_steps.specs.Answering.{answered_of};
ghost use Rattle.theory_origins.specs.Ways.{AreEventsTo};
ghost use Rattle.csp_moves.specs.Passing.{AddsPassing, ArePassing, IsEventTo, IsPassing, IsSearchable};

use crate::deciding::leads_to;
use csp_events::{EventTest, Images};
use csp_expression::NoValue;
use csp_steps::{RuleStep, steps};
use csp_term::{Action, AllocHandle, Event, Memory, ScriptParts, Term};
use csp_value::laws::equal_events;

/// Which events of a body pass its operator, for one action of the whole.
#[derive(Drop)]
pub(crate) enum Passing<'t, A: AllocHandle> {
    /// The events of the set pass as a tau.
    Hidden(EventTest<A>),
    /// Those that are renamed to the event pass as that.
    Renamed(Images<A>, &'t Event<A>),
}

/// Whether the event is one of these.
fn is_among<A: AllocHandle>(events: &[Event<A>], event: &Event<A>) -> bool
    ensures { IsTrue result ↔ Contains (map event_of events.now) (event_of event.now) }
{
    for other in events {
        if equal_events(other, event) {
            return true;
        }
    }
    false
}

/// Whether the one event is an image of the other. `Memory` says that there is no room to tell.
fn is_image<A: AllocHandle>(
    alloc: A,
    images: &Images<A>,
    image: &Event<A>,
    event: &Event<A>,
) -> Result<bool, Memory>
    requires { PairsRise images.now }
    ensures { IfOk result (λ told. IsTrue told ↔ Contains
        (or_itself (event_of event.now) (found_images images.now (event_of event.now)))
        (event_of image.now)) }
{
    let copy = event.try_copy(alloc)?;
    let found = images.of_event(alloc, copy)?;
    let listed = found.as_slice();
    Ok(is_among(listed, image))
}

impl<'t, A: AllocHandle> Passing<'t, A> {
    /// Whether the event passes. `Memory` says that there is no room to tell.
    fn passes(&self, alloc: A, event: &Event<A>) -> Result<bool, Memory>
        requires { IsSearchable self.now }
        ensures { IfOk result (λ passes. IsTrue passes ↔ IsPassing self.now (event_of event.now)) }
    {
        match self {
            Passing::Hidden(test) => Ok(test.holds(event)),
            Passing::Renamed(images, image) => is_image(alloc, images, *image, event),
        }
    }
}

/// The event of the step, where it leads to the target.
fn event_to<'s, A: AllocHandle>(step: &'s RuleStep<A>, target: &Term<A>) -> Option<&'s Event<A>>
    ensures { IsEventTo (process_of target.now) (answered_of step.now)
        (option_map (λ e. event_of e.now) result) }
{
    if !leads_to(&step.target, target) {
        return None;
    }
    match &step.action {
        Action::Tau => None,
        Action::Tick => None,
        Action::Event(event) => Some(event),
    }
}

/// Adds a copy of the event.
fn add_copy<A: AllocHandle>(
    alloc: A,
    event: &Event<A>,
    events: &mut Vec<Event<A>, A>,
) -> Result<(), Memory>
    ensures { OnOk result (map event_of events.new.items
        ≡ map event_of events.old.items ++ event_of event.now ∷ []) }
{
    let copy = event.try_copy(alloc)?;
    events.push(copy)?;
    Ok(())
}

/// Adds the event of the step, where it leads to the target and passes.
fn add_passing<A: AllocHandle>(
    alloc: A,
    passing: &Passing<'_, A>,
    step: &RuleStep<A>,
    target: &Term<A>,
    events: &mut Vec<Event<A>, A>,
) -> Result<(), Memory>
    requires { IsSearchable passing.now }
    ensures { OnOk result (AddsPassing (process_of target.now) (IsPassing passing.now)
        (answered_of step.now) (map event_of events.old.items) (map event_of events.new.items)) }
{
    let Some(event) = event_to(step, target) else {
        return Ok(());
    };
    let is_passing = passing.passes(alloc, event)?;
    if is_passing {
        add_copy(alloc, event, events)?;
        return Ok(());
    }
    Ok(())
}

/// The events of the steps that lead to the target and pass. `Memory` says that there is no room for them.
fn all_passing<A: AllocHandle>(
    alloc: A,
    passing: &Passing<'_, A>,
    steps: &[RuleStep<A>],
    target: &Term<A>,
) -> Result<Vec<Event<A>, A>, Memory>
    requires { IsSearchable passing.now }
    ensures { IfOk result (λ events. ArePassing (process_of target.now) (IsPassing passing.now)
        (map answered_of steps.now) (map event_of events.items)) }
{
    let mut events = Vec::new(alloc);
    for step in steps {
        add_passing(alloc, passing, step, target, &mut events)?;
    }
    Ok(events)
}

/// The events by which the body leads to the target and that pass; none where a rule for the body lacks a value.
/// `Memory` says that there is no room for them.
pub(crate) fn events_to<A: AllocHandle>(
    alloc: A,
    script: &ScriptParts<A>,
    passing: &Passing<'_, A>,
    body: &Term<A>,
    target: &Term<A>,
) -> Result<Vec<Event<A>, A>, Memory>
    requires { IsSearchable passing.now }
    ensures { IfOk result (λ events. AreEventsTo (script_of_parts script.now) (process_of body.now)
        (process_of target.now) (IsPassing passing.now) (map event_of events.items)) }
{
    match steps(alloc, script, &[], body) {
        Ok(steps) => all_passing(alloc, passing, &steps, target),
        Err(NoValue::Memory) => Err(Memory),
        Err(NoValue::Cause(_)) => Ok(Vec::new(alloc)),
    }
}
