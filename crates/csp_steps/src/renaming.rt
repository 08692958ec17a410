//! `P [[from <- to, ..]]` does what `P` does, and each event as each of its images. A tick ends all.

ghost use Rattle.std.specs.Prelude.{◌≡◌, ◌++◌, IfOk, OnOk, map};
ghost use Rattle.theory_syntax.specs.Process as pure;
ghost use Rattle.theory_syntax.specs.Process.{Renaming};
ghost use Rattle.theory_syntax.specs.Value.{Ev};
ghost use Rattle.csp_value.specs.Action.{event_of};
ghost use Rattle.csp_events.specs.Events.{renaming_pairs_of};
ghost use Rattle.csp_steps.specs.Answering.{AnswersIn, answers_of, target_of};
ghost use Rattle.csp_steps.specs.Composing.{each_answer, image_answers, one_answer};
ghost use Rattle.csp_steps.specs.Renaming.{renamed_answer};
ghost use Rattle.csp_events.specs.Imaging.{PairsRise};

use crate::composition::Frame;
use crate::rule_step::{RuleStep, Target, add_step};
use csp_events::{Images, RenamingPair};
use csp_expression::NoValue;
use csp_term::{Action, AllocHandle, Event, Memory, ScriptParts};

/// Adds a step by each image of the event.
fn add_images<A: AllocHandle>(
    alloc: A,
    images: Vec<Event<A>, A>,
    target: &Target<A>,
    steps: &mut Vec<RuleStep<A>, A>,
) -> Result<(), Memory>
    ensures { OnOk result (answers_of steps.new ≡ answers_of steps.old
        ++ image_answers (target_of target.now) (map event_of images.items)) }
{
    for image in images {
        let target = target.try_copy(alloc)?;
        let action = Action::Event(image);
        steps.push(RuleStep { action, target })?;
    }
    Ok(())
}

/// Adds the steps by the event's images.
fn add_event<A: AllocHandle>(
    alloc: A,
    frame: &Frame<A>,
    images: &Images<A>,
    event: Event<A>,
    target: Target<A>,
    steps: &mut Vec<RuleStep<A>, A>,
) -> Result<(), Memory>
    requires { PairsRise images.now }
    ensures { OnOk result (answers_of steps.new ≡ answers_of steps.old
        ++ renamed_answer frame.now images.now (Ev (event_of event)) (target_of target)) }
{
    let target = frame.of(alloc, target)?;
    let images = images.of_event(alloc, event)?;
    add_images(alloc, images, &target, steps)
}

fn add_one<A: AllocHandle>(
    alloc: A,
    frame: &Frame<A>,
    images: &Images<A>,
    of_body: RuleStep<A>,
    steps: &mut Vec<RuleStep<A>, A>,
) -> Result<(), Memory>
    requires { PairsRise images.now }
    ensures { OnOk result (answers_of steps.new ≡ answers_of steps.old
        ++ one_answer (renamed_answer frame.now images.now) of_body) }
{
    let RuleStep { action, target } = of_body;
    match action {
        Action::Tick => add_step(Action::Tick, Target::omega(alloc)?, steps),
        Action::Tau => add_step(Action::Tau, frame.of(alloc, target)?, steps),
        Action::Event(event) => add_event(alloc, frame, images, event, target, steps),
    }
}

/// The steps of `P [[from <- to, ..]]` by those of its body. A cause of the pairs comes before those of the body.
/// `Memory` says that there is no room.
pub fn by_body<A: AllocHandle>(
    alloc: A,
    script: &ScriptParts<A>,
    pairs: Vec<RenamingPair<A>, A>,
    body: Result<Vec<RuleStep<A>, A>, NoValue>,
) -> Result<Vec<RuleStep<A>, A>, NoValue>
    ensures { (p : pure.Process) → AnswersIn script.now p body
        → AnswersIn script.now (Renaming p (renaming_pairs_of pairs.items)) result }
{
    let images = script.images(alloc, &pairs)?;
    let body = body?;
    let frame = Frame::Renaming(pairs);
    let steps = renamed(alloc, &frame, &images, body);
    drop(frame);
    Ok(steps?)
}

/// The steps by those of the body.
fn renamed<A: AllocHandle>(
    alloc: A,
    frame: &Frame<A>,
    images: &Images<A>,
    body: Vec<RuleStep<A>, A>,
) -> Result<Vec<RuleStep<A>, A>, Memory>
    requires { PairsRise images.now }
    ensures { IfOk result (λ steps. answers_of steps
        ≡ each_answer (renamed_answer frame.now images.now) (answers_of body)) }
{
    let mut steps = Vec::new(alloc);
    for of_body in body {
        add_one(alloc, frame, images, of_body, &mut steps)?;
    }
    Ok(steps)
}
