//! `P /\ Q` does what `P` does, until it ticks or `Q` does an event or ticks.

ghost use Rattle.std.specs.Prelude.{◌≡◌, ◌++◌, IfOk, OnOk};
ghost use Rattle.theory_syntax.specs.Process as pure;
ghost use Rattle.theory_syntax.specs.Process.{Interrupt};
ghost use Rattle.csp_steps.specs.Answering.{Answers, answers_of};
ghost use Rattle.csp_steps.specs.Composing.{AreSidesOf, answers_of_sides, around_of, composition_of, each_answer, ended_or_left_answers, ending_answer};

use crate::composition::Composition;
use crate::context::{Context, Hand};
use crate::leave;
use crate::rule_step::RuleStep;
use crate::sharing::Sharing;
use crate::side::Side;
use crate::stay::{self, AfterTick};
use csp_expression::NoValue;
use csp_term::{AllocHandle, Memory, ProcessOperator};

/// The steps of `P /\ Q` by those of its sides, or the first cause of both. `Memory` says that there is no room.
pub fn by_sides<A: AllocHandle>(
    alloc: A,
    sides: Result<(Side<A>, Side<A>), NoValue>,
) -> Result<Vec<RuleStep<A>, A>, NoValue>
    ensures { (s : pure.Script) (p q : pure.Process) → AreSidesOf s p q sides
        → Answers s (Interrupt p q) result }
{
    let (left, right) = sides?;
    let composition = Composition::Operator(ProcessOperator::Interrupt);
    let steps = under(alloc, &composition, left, right);
    drop(composition);
    Ok(steps?)
}

/// The operator that the left side ends and that a visible action of the right one leaves.
fn under<A: AllocHandle>(
    alloc: A,
    composition: &Composition<A>,
    left: Side<A>,
    right: Side<A>,
) -> Result<Vec<RuleStep<A>, A>, Memory>
    ensures { IfOk result (λ steps. answers_of steps
        ≡ answers_of_sides (ended_or_left_answers (composition_of composition.now)) left right) }
{
    let mut steps = Vec::new(alloc);
    let context = Context {
        composition,
        hand: Hand::Left,
        other: &right.process,
        next: &right.process,
    };
    goes_on(alloc, context, left.steps, &mut steps)?;
    let context = Context {
        composition,
        hand: Hand::Right,
        other: &left.process,
        next: &left.process,
    };
    leave::add(alloc, context, right.steps, &mut steps)?;
    Ok(steps)
}

/// Adds what the left side does, which is free to do all, and whose tick ends the operator.
fn goes_on<A: AllocHandle>(
    alloc: A,
    context: Context<'_, A>,
    moves: Vec<RuleStep<A>, A>,
    steps: &mut Vec<RuleStep<A>, A>,
) -> Result<(), Memory>
    ensures { OnOk result (answers_of steps.new ≡ answers_of steps.old
        ++ each_answer (ending_answer (around_of context.entry)) (answers_of moves)) }
{
    let sharing = Sharing::Nothing;
    let added = stay::add(alloc, context, &sharing, AfterTick::All, moves, steps);
    drop(sharing);
    added
}
