//! The steps of a process in a frame.

ghost use Rattle.std.specs.Prelude.{◌≡◌, ◌≤◌, ◌++◌, OnOk, drop, length, map, take};
ghost use Rattle.csp_rows.specs.Stacks.{ArePlacesIn, IsOnTop, between};
ghost use Rattle.csp_rows.specs.Framed.{IsFramed, hidden_step, image_steps, images_at, renamed_step, renamed_steps};

use crate::bits::Bits;
use crate::changes::Run;
use crate::numbers::{ActionId, EventId};
use crate::stack::{Places, let_go};
use crate::step::Step;
use std::alloc::{AllocError, Allocator};

/// A renaming of events.
#[derive(Drop)]
pub struct Images<A: Allocator> {
    /// What the event of each number is done as.
    pub images: Vec<Vec<EventId, A>, A>,
}

/// What stands round a process.
#[derive(Drop)]
pub enum Frame<A: Allocator> {
    /// The events of the set are hidden.
    Hidden(Bits<A>),
    /// Each event is done as each of its images.
    Renamed(Images<A>),
}

/// The step where the events of a set are hidden. A tick ends the frame, which does not leave the shape as it is.
fn hide_one<A: Allocator>(step: Step, hidden: &Bits<A>) -> Step
    ensures { result ≡ hidden_step hidden.now.marks.items step }
{
    let changes = step.changes;
    match step.action {
        ActionId::Tau => step,
        ActionId::Tick => {
            let action = ActionId::Tick;
            let changes = None;
            Step { action, changes }
        }
        ActionId::Event(event) => {
            if hidden.contains(event) {
                let action = ActionId::Tau;
                Step { action, changes }
            } else {
                step
            }
        }
    }
}

/// Hides the events of a set in the steps between the places, each in its place.
fn hide<A: Allocator>(steps: &mut Vec<Step, A>, body: Places, hidden: &Bits<A>)
    requires { ArePlacesIn (length steps.now.items) body }
    ensures { steps.new.items ≡ take body.from steps.old.items
        ++ (map (hidden_step hidden.now.marks.items) (between body steps.old.items)
        ++ drop body.to steps.old.items) }
{
    for place in body.from..body.to {
        steps[place] = hide_one(steps[place], hidden);
    }
}

/// What an event is done as: nothing, if there are no images of its number.
fn images_of<A: Allocator>(images: &Images<A>, event: EventId) -> &[EventId]
    ensures { result.now ≡ images_at images.now.images.items event.0 }
{
    match images.images.get(event.0 as usize) {
        Some(images) => images.as_slice(),
        None => &[],
    }
}

/// Adds a step by each of the events, all with the same changes.
fn add_images<A: Allocator>(
    all: &mut Vec<Step, A>,
    images: &[EventId],
    changes: Option<Run>,
) -> Result<(), AllocError>
    ensures { OnOk result (all.new.items ≡ all.old.items ++ image_steps changes images.now) }
{
    for image in images {
        let action = ActionId::Event(*image);
        all.push(Step { action, changes })?;
    }
    Ok(())
}

/// Adds the step where events are renamed. A tick ends the frame, which does not leave the shape as it is.
fn add_renamed<A: Allocator>(
    all: &mut Vec<Step, A>,
    step: Step,
    images: &Images<A>,
) -> Result<(), AllocError>
    ensures { OnOk result (all.new.items ≡ all.old.items
        ++ renamed_step images.now.images.items step) }
{
    match step.action {
        ActionId::Tau => {
            all.push(step)?;
            Ok(())
        }
        ActionId::Tick => {
            let action = ActionId::Tick;
            let changes = None;
            all.push(Step { action, changes })?;
            Ok(())
        }
        ActionId::Event(event) => add_images(all, images_of(images, event), step.changes),
    }
}

/// Renames the events of the steps between the places, which are all on top.
fn rename<A: Allocator>(
    steps: &mut Vec<Step, A>,
    body: Places,
    images: &Images<A>,
) -> Result<(), AllocError>
    requires in_bounds { ArePlacesIn (length steps.now.items) body }
    requires top { body.to ≡ length steps.now.items }
    ensures { OnOk result (steps.new.items ≡ take body.from steps.old.items
        ++ renamed_steps images.now.images.items (between body steps.old.items)) }
{
    for place in body.from..body.to {
        let step = steps[place];
        add_renamed(steps, step, images)?;
    }
    let_go(steps, body);
    Ok(())
}

/// Puts a frame round the process whose steps stand from a place on: they are those of the frame then.
pub(crate) fn enframe<A: Allocator>(
    steps: &mut Vec<Step, A>,
    from: usize,
    frame: &Frame<A>,
) -> Result<(), AllocError>
    requires { from ≤ length steps.now.items }
    ensures { OnOk result (IsOnTop (take from steps.old.items)
        (IsFramed frame.now (drop from steps.old.items)) steps.new.items) }
{
    let to = steps.len();
    let body = Places { from, to };
    match frame {
        Frame::Hidden(hidden) => {
            hide(steps, body, hidden);
            Ok(())
        }
        Frame::Renamed(images) => rename(steps, body, images),
    }
}
