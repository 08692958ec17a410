//! Choices. `P [] Q` keeps the choice by a tau of a side, and makes it by an event or tick. `P |~| Q` chooses by
//! itself, and looks at neither side.

ghost use Rattle.std.specs.Prelude.{◌≡◌, IfOk};
ghost use Rattle.theory_syntax.specs.Process as pure;
ghost use Rattle.theory_syntax.specs.Process.{ExternalChoice, InternalChoice};
ghost use Rattle.csp_steps.specs.Answering.{Answers, answers_of, target_of};
ghost use Rattle.csp_steps.specs.Composing.{AreSidesOf, answers_of_sides, composition_of, external_answers, left_answers, process_of_sides, side_answers, tau_answers, under_both};

use crate::composition::Composition;
use crate::context::{Context, Hand};
use crate::leave;
use crate::rule_step::{RuleStep, Target, add_step, one_step};
use crate::side::Side;
use csp_expression::NoValue;
use csp_term::{Action, AllocHandle, Memory, ProcessOperator};

/// The steps of `P [] Q` by those of its sides, or the first cause of both. `Memory` says that there is no room.
pub fn by_sides<A: AllocHandle>(
    alloc: A,
    sides: Result<(Side<A>, Side<A>), NoValue>,
) -> Result<Vec<RuleStep<A>, A>, NoValue>
    ensures { (s : pure.Script) (p q : pure.Process) → AreSidesOf s p q sides
        → Answers s (ExternalChoice p q) result }
{
    let (left, right) = sides?;
    Ok(between(alloc, left, right)?.steps)
}

/// `P [] Q` with its steps, for a longer chain. `Memory` says that there is no room.
pub fn between<A: AllocHandle>(alloc: A, left: Side<A>, right: Side<A>) -> Result<Side<A>, Memory>
    ensures process { IfOk result (λ side. target_of side.process
        ≡ process_of_sides ExternalChoice left right) }
    ensures steps { IfOk result (λ side. side_answers side
        ≡ answers_of_sides external_answers left right) }
{
    let composition = Composition::Operator(ProcessOperator::ExternalChoice);
    let side = under(alloc, &composition, left, right);
    drop(composition);
    side
}

/// The operator that a visible action of a side leaves.
fn under<A: AllocHandle>(
    alloc: A,
    composition: &Composition<A>,
    left: Side<A>,
    right: Side<A>,
) -> Result<Side<A>, Memory>
    ensures process { IfOk result (λ side. target_of side.process
        ≡ process_of_sides (composition_of composition.now) left right) }
    ensures steps { IfOk result (λ side. side_answers side
        ≡ answers_of_sides (left_answers (composition_of composition.now)) left right) }
{
    let mut steps = Vec::new(alloc);
    let context = Context {
        composition,
        hand: Hand::Left,
        other: &right.process,
        next: &right.process,
    };
    leave::add(alloc, context, left.steps, &mut steps)?;
    let context = Context {
        composition,
        hand: Hand::Right,
        other: &left.process,
        next: &left.process,
    };
    leave::add(alloc, context, right.steps, &mut steps)?;
    let process = composition.of(alloc, left.process, right.process)?;
    Ok(Side { process, steps })
}

/// A tau to each of the two. `Memory` says that there is no room.
pub fn taus<A: AllocHandle>(
    alloc: A,
    left: Target<A>,
    right: Target<A>,
) -> Result<Vec<RuleStep<A>, A>, Memory>
    ensures { IfOk result (λ steps. answers_of steps
        ≡ tau_answers (target_of left) (target_of right)) }
{
    let mut steps = one_step(alloc, Action::Tau, left)?;
    add_step(Action::Tau, right, &mut steps)?;
    Ok(steps)
}

/// `P |~| Q`, if it is within the limits. `Memory` says that there is no room.
pub fn either<A: AllocHandle>(
    alloc: A,
    left: Target<A>,
    right: Target<A>,
) -> Result<Target<A>, Memory>
    ensures { IfOk result (λ t. target_of t ≡ under_both InternalChoice (target_of left)
        (target_of right)) }
{
    let composition = Composition::Operator(ProcessOperator::InternalChoice);
    let target = composition.of(alloc, left, right);
    drop(composition);
    target
}
