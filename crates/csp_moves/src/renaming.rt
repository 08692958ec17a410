//! The ways of `P [[from <- to, ..]]`.

ghost use Rattle.std.specs.Prelude.{◌≡◌, IfOk, Some, map};
ghost use Rattle.theory_syntax.specs.Process.{Renaming, Script};
ghost use Rattle.theory_syntax.specs.Value.{Ev, Tau, Tick};
ghost use Rattle.theory_semantics.specs.Meaning.Events.{renaming};
ghost use Rattle.csp_value.specs.Action.{event_of};
ghost use Rattle.csp_events.specs.Events.{renaming_pairs_of};
ghost use Rattle.csp_events.specs.Imaging.{PairsRise};
ghost use Rattle.csp_term.specs.Script.{script_of_parts};
ghost use Rattle.csp_term.specs.Term.{process_of};
ghost use Rattle.theory_origins.specs.Origin.{Renames};
ghost use Rattle.theory_origins.specs.Ways.{AreEventsTo, Through, part};
ghost use Rattle.csp_moves.specs.Bodies.{AreImagesIfAny, AreRenamedEvents};
ghost use Rattle.csp_moves.specs.Passing.{HasImage};
ghost use Rattle.csp_moves.specs.Way.{AreFound, AreFoundIn, lent_action, ways_of};

use crate::frame::{Frame, body_of, to_body};
use crate::passing::{Passing, events_to};
use crate::way::{LentAction, LentPassage, Part, Way, no_ways, one_way};
use csp_events::{Images, RenamingPair};
use csp_expression::NoValue;
use csp_term::{AllocHandle, Event, Memory, ScriptParts, Term};

/// A process and the pairs that rename its events.
#[derive(Clone, Copy)]
pub struct Renamed<'t, A: AllocHandle> {
    /// The process.
    pub body: &'t Term<A>,
    /// What becomes of its events.
    pub pairs: &'t Vec<RenamingPair<A>, A>,
}

/// What the pairs make of events, if they have a value.
fn images_of_pairs<A: AllocHandle>(
    alloc: A,
    script: &ScriptParts<A>,
    pairs: &[RenamingPair<A>],
) -> Result<Option<Images<A>>, Memory>
    ensures { IfOk result (λ found. AreImagesIfAny found
        (renaming (script_of_parts script.now) (renaming_pairs_of pairs.now))) }
{
    match script.images(alloc, pairs) {
        Ok(images) => Ok(Some(images)),
        Err(NoValue::Memory) => Err(Memory),
        Err(NoValue::Cause(_)) => Ok(None),
    }
}

/// The events that are renamed to that of the step, by which the body leads to what is renamed in the target. `Memory`
/// says that there is no room for them.
pub fn renamed_events<A: AllocHandle>(
    alloc: A,
    script: &ScriptParts<A>,
    process: Renamed<'_, A>,
    action: LentAction<'_, A>,
    target: &Term<A>,
) -> Result<Vec<Event<A>, A>, Memory>
    ensures { IfOk result (λ events. AreRenamedEvents (script_of_parts script.now)
        (process_of process.entry.body.now) (renaming_pairs_of process.entry.pairs.now.items)
        (lent_action action.entry) (process_of target.now) (map event_of events.items)) }
{
    match action {
        LentAction::Tau => Ok(Vec::new(alloc)),
        LentAction::Tick => Ok(Vec::new(alloc)),
        LentAction::Event(event) => renamed_to(alloc, script, process, event, target),
    }
}

fn renamed_to<A: AllocHandle>(
    alloc: A,
    script: &ScriptParts<A>,
    process: Renamed<'_, A>,
    event: &Event<A>,
    target: &Term<A>,
) -> Result<Vec<Event<A>, A>, Memory>
    ensures { IfOk result (λ events. AreRenamedEvents (script_of_parts script.now)
        (process_of process.entry.body.now) (renaming_pairs_of process.entry.pairs.now.items)
        (Ev (event_of event.now)) (process_of target.now) (map event_of events.items)) }
{
    let frame = Frame::Renaming(process.pairs);
    let Some(body_target) = body_of(&frame, target) else {
        return Ok(Vec::new(alloc));
    };
    let listed = process.pairs.as_slice();
    let found = images_of_pairs(alloc, script, listed)?;
    let Some(images) = found else {
        return Ok(Vec::new(alloc));
    };
    renamed_from(alloc, script, images, event, process.body, body_target)
}

// The events of which this one is an image, of those by which the body leads to the target. Where there is one at most, the
// steps of the body, which may be large, are not looked at.
fn renamed_from<A: AllocHandle>(
    alloc: A,
    script: &ScriptParts<A>,
    images: Images<A>,
    image: &Event<A>,
    body: &Term<A>,
    target: &Term<A>,
) -> Result<Vec<Event<A>, A>, Memory>
    requires { PairsRise images }
    ensures { IfOk result (λ events. AreEventsTo (script_of_parts script.now) (process_of body.now)
        (process_of target.now) (HasImage images (event_of image.now))
        (map event_of events.items)) }
{
    let sources = images.sources(alloc, image)?;
    if sources.len() <= 1 {
        return Ok(sources);
    }
    drop(sources);
    let passing = Passing::Renamed(images, image);
    let events = events_to(alloc, script, &passing, body, target);
    drop(passing);
    events
}

/// The ways in which `P [[from <- to, ..]]` may do the step, through these events if it is one. `Memory` says that there
/// is no room for them.
pub fn renaming_ways<'t, A: AllocHandle>(
    alloc: A,
    process: Renamed<'t, A>,
    events: &'t [Event<A>],
    action: LentAction<'t, A>,
    target: &'t Term<A>,
) -> Result<Vec<Way<'t, A>, A>, Memory>
    ensures { (s : Script) → AreRenamedEvents s (process_of process.entry.body.now)
        (renaming_pairs_of process.entry.pairs.now.items) (lent_action action.entry)
        (process_of target.now) (map event_of events.now)
        → IfOk result (AreFoundIn s
        (Renaming (process_of process.entry.body.now)
        (renaming_pairs_of process.entry.pairs.now.items)) (lent_action action.entry)
        (process_of target.now)) }
{
    match action {
        LentAction::Tau => by_tau(alloc, process, target),
        LentAction::Tick => by_tick(alloc, process, target),
        LentAction::Event(event) => by_event(alloc, process, events, event, target),
    }
}

/// A tau of the body stays under the operator.
fn by_tau<'t, A: AllocHandle>(
    alloc: A,
    process: Renamed<'t, A>,
    target: &'t Term<A>,
) -> Result<Vec<Way<'t, A>, A>, Memory>
    ensures { IfOk result (AreFound (Renaming (process_of process.entry.body.now)
        (renaming_pairs_of process.entry.pairs.now.items)) Tau (process_of target.now)) }
{
    let frame = Frame::Renaming(process.pairs);
    let body_target = body_of(&frame, target);
    one_way(alloc, to_body(process.body, LentAction::Tau, body_target))
}

/// The end of the body is that of the whole.
fn by_tick<'t, A: AllocHandle>(
    alloc: A,
    process: Renamed<'t, A>,
    target: &'t Term<A>,
) -> Result<Vec<Way<'t, A>, A>, Memory>
    ensures { IfOk result (AreFound (Renaming (process_of process.entry.body.now)
        (renaming_pairs_of process.entry.pairs.now.items)) Tick (process_of target.now)) }
{
    one_way(alloc, to_body(process.body, LentAction::Tick, Some(target)))
}

/// An event of the body becomes one that it is renamed to.
fn by_event<'t, A: AllocHandle>(
    alloc: A,
    process: Renamed<'t, A>,
    events: &'t [Event<A>],
    event: &'t Event<A>,
    target: &'t Term<A>,
) -> Result<Vec<Way<'t, A>, A>, Memory>
    ensures { (s : Script) → AreRenamedEvents s (process_of process.entry.body.now)
        (renaming_pairs_of process.entry.pairs.now.items) (Ev (event_of event.now))
        (process_of target.now) (map event_of events.now)
        → IfOk result (AreFoundIn s
        (Renaming (process_of process.entry.body.now)
        (renaming_pairs_of process.entry.pairs.now.items)) (Ev (event_of event.now))
        (process_of target.now)) }
{
    let frame = Frame::Renaming(process.pairs);
    let Some(body_target) = body_of(&frame, target) else {
        return no_ways(alloc);
    };
    through_renamed(alloc, process.body, events, event, body_target)
}

/// The ways through the body to the target, by each of the events, which becomes the image.
fn through_renamed<'t, A: AllocHandle>(
    alloc: A,
    body: &'t Term<A>,
    events: &'t [Event<A>],
    image: &'t Event<A>,
    target: &'t Term<A>,
) -> Result<Vec<Way<'t, A>, A>, Memory>
    ensures { IfOk result (λ ways. ways_of ways ≡ map
        (λ e. Through (Renames e (event_of image.now))
        (part (process_of body.now) (Ev e) (Some (process_of target.now))))
        (map event_of events.now)) }
{
    let mut ways = no_ways(alloc)?;
    for event in events {
        let part = Part {
            process: body,
            action: LentAction::Event(event),
            target: Some(target),
        };
        ways.push(Way::Through(LentPassage::Renames(event, image), part))?;
    }
    Ok(ways)
}
