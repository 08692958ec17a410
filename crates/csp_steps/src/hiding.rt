//! `P \ A` does what `P` does, and the events of `A` as tau. A tick ends all.

ghost use Rattle.std.specs.Prelude.{◌≡◌, ◌∷◌, [], IfOk, cond};
ghost use Rattle.theory_syntax.specs.Process as pure;
ghost use Rattle.theory_syntax.specs.Process.{Hiding};
ghost use Rattle.theory_syntax.specs.Value.{Ev, Tau};
ghost use Rattle.csp_value.specs.Action.{action_of, event_of};
ghost use Rattle.csp_events.specs.Events.{event_set_of};
ghost use Rattle.csp_steps.specs.Answering.{AnswersIn, answered_of, answers_of, target_of};
ghost use Rattle.csp_steps.specs.Composing.{each_answer, hide_answer, one_answer, under_frame};
ghost use Rattle.csp_events.specs.Testing.{AreSorted, listed_in, test_of};

use crate::composition::Frame;
use crate::rule_step::{RuleStep, Target};
use csp_events::{EventSet, EventTest};
use csp_expression::NoValue;
use csp_term::{Action, AllocHandle, Event, Memory, ScriptParts};

/// What is seen of the event.
fn hidden_event<A: AllocHandle>(test: &EventTest<A>, event: Event<A>) -> Action<A>
    requires { AreSorted (listed_in test.now) }
    ensures { action_of result ≡ cond (test_of test.now (event_of event)) Tau
        (Ev (event_of event)) }
{
    if test.holds(&event) {
        Action::Tau
    } else {
        Action::Event(event)
    }
}

/// The step of the body under the operator, with what is seen of its action.
fn under<A: AllocHandle>(
    alloc: A,
    frame: &Frame<A>,
    action: Action<A>,
    target: Target<A>,
) -> Result<RuleStep<A>, Memory>
    ensures { IfOk result (λ s. answered_of s
        ≡ (action_of action, under_frame frame.now (target_of target))) }
{
    let target = frame.of(alloc, target)?;
    Ok(RuleStep { action, target })
}

fn step<A: AllocHandle>(
    alloc: A,
    frame: &Frame<A>,
    test: &EventTest<A>,
    of_body: RuleStep<A>,
) -> Result<RuleStep<A>, Memory>
    requires { AreSorted (listed_in test.now) }
    ensures { IfOk result (λ s. answered_of s ∷ []
        ≡ one_answer (hide_answer (test_of test.now) (under_frame frame.now)) of_body) }
{
    let RuleStep { action, target } = of_body;
    match action {
        Action::Tick => {
            let target = Target::omega(alloc)?;
            let action = Action::Tick;
            Ok(RuleStep { action, target })
        }
        Action::Tau => under(alloc, frame, Action::Tau, target),
        Action::Event(event) => under(alloc, frame, hidden_event(test, event), target),
    }
}

/// The steps of `P \ A` by those of its body. A cause of the set comes before those of the body.
/// `Memory` says that there is no room.
pub fn by_body<A: AllocHandle>(
    alloc: A,
    script: &ScriptParts<A>,
    hidden: EventSet<A>,
    body: Result<Vec<RuleStep<A>, A>, NoValue>,
) -> Result<Vec<RuleStep<A>, A>, NoValue>
    ensures { (p : pure.Process) → AnswersIn script.now p body
        → AnswersIn script.now (Hiding p (event_set_of hidden)) result }
{
    let test = script.event_test(alloc, &hidden)?;
    let body = body?;
    let frame = Frame::Hiding(hidden);
    let steps = without(alloc, &frame, &test, body);
    drop(frame);
    drop(test);
    Ok(steps?)
}

/// The steps by those of the body.
fn without<A: AllocHandle>(
    alloc: A,
    frame: &Frame<A>,
    test: &EventTest<A>,
    body: Vec<RuleStep<A>, A>,
) -> Result<Vec<RuleStep<A>, A>, Memory>
    requires { AreSorted (listed_in test.now) }
    ensures { IfOk result (λ steps. answers_of steps
        ≡ each_answer (hide_answer (test_of test.now) (under_frame frame.now)) (answers_of body)) }
{
    let mut steps = Vec::new(alloc);
    for of_body in body {
        steps.push(step(alloc, frame, test, of_body)?)?;
    }
    Ok(steps)
}
