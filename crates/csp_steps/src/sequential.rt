//! `P ; Q` does what `P` does until `P` ends, and goes on as `Q` by tau.

ghost use Rattle.std.specs.Prelude.{◌≡◌, IfOk};
ghost use Rattle.theory_syntax.specs.Process as pure;
ghost use Rattle.theory_syntax.specs.Process.{Sequential};
ghost use Rattle.theory_semantics.specs.Meaning.Unfolding.{settled};
ghost use Rattle.csp_steps.specs.Answering.{Answers, answers_of, target_of, within_limits};
ghost use Rattle.csp_steps.specs.Composing.{sequential_answers};

use crate::composition::Composition;
use crate::context::{Context, Hand};
use crate::rule_step::{RuleStep, Target};
use crate::sharing::Sharing;
use crate::stay::{self, AfterTick};
use csp_expression::NoValue;
use csp_term::{AllocHandle, Memory, ProcessOperator};

/// The steps of `P ; Q` by those of its left side, or the first cause of that one. `right` is `Q`, and `next` what the end
/// of `P` leads to: `Q`, settled. `Memory` says that there is no room.
pub fn by_left<'t, A: AllocHandle>(
    alloc: A,
    left: Result<Vec<RuleStep<A>, A>, NoValue>,
    right: &'t Target<A>,
    next: &'t Target<A>,
) -> Result<Vec<RuleStep<A>, A>, NoValue>
    ensures { (s : pure.Script) (p q : pure.Process) → Answers s p left
        → target_of right.now ≡ within_limits q → target_of next.now ≡ within_limits (settled s q)
        → Answers s (Sequential p q) result }
{
    let left = left?;
    Ok(before(alloc, left, right, next)?)
}

/// The steps by those of the left side.
fn before<'t, A: AllocHandle>(
    alloc: A,
    left: Vec<RuleStep<A>, A>,
    right: &'t Target<A>,
    next: &'t Target<A>,
) -> Result<Vec<RuleStep<A>, A>, Memory>
    ensures { IfOk result (λ steps. answers_of steps
        ≡ sequential_answers (answers_of left) (target_of right.now) (target_of next.now)) }
{
    let composition = Composition::Operator(ProcessOperator::Sequential);
    let sharing = Sharing::Nothing;
    let context = Context {
        composition: &composition,
        hand: Hand::Left,
        other: right,
        next,
    };
    let mut steps = Vec::new(alloc);
    let added = stay::add(alloc, context, &sharing, AfterTick::Next, left, &mut steps);
    drop(sharing);
    drop(composition);
    added?;
    Ok(steps)
}
