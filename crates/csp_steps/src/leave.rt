//! What a side does whose first visible action leaves the composition: tau keeps it, and an event or tick goes on
//! alone.

ghost use Rattle.std.specs.Prelude.{◌≡◌, ◌++◌, ◌∷◌, [], IfOk, OnOk};
ghost use Rattle.csp_steps.specs.Answering.{answered_of, answers_of};
ghost use Rattle.csp_steps.specs.Composing.{around_of, each_answer, leave_answer, one_answer};

use crate::context::Context;
use crate::rule_step::RuleStep;
use csp_term::{Action, AllocHandle, Memory};

fn step<A: AllocHandle>(
    alloc: A,
    context: Context<'_, A>,
    of_side: RuleStep<A>,
) -> Result<RuleStep<A>, Memory>
    ensures { IfOk result (λ s. answered_of s ∷ []
        ≡ one_answer (leave_answer (around_of context.entry)) of_side) }
{
    let RuleStep { action, target } = of_side;
    match action {
        Action::Tau => {
            let target = context.around(alloc, target)?;
            let action = Action::Tau;
            Ok(RuleStep { action, target })
        }
        action => Ok(RuleStep { action, target }),
    }
}

/// Adds the steps of the side that moves.
pub(crate) fn add<A: AllocHandle>(
    alloc: A,
    context: Context<'_, A>,
    moves: Vec<RuleStep<A>, A>,
    steps: &mut Vec<RuleStep<A>, A>,
) -> Result<(), Memory>
    ensures { OnOk result (answers_of steps.new ≡ answers_of steps.old
        ++ each_answer (leave_answer (around_of context.entry)) (answers_of moves)) }
{
    for of_side in moves {
        steps.push(step(alloc, context, of_side)?)?;
    }
    Ok(())
}
