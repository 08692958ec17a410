//! `P [> Q` does what `P` does, and an event or tick of `P` makes the choice. Until then a tau leads to `Q`.

ghost use Rattle.std.specs.Prelude.{◌≡◌, IfOk};
ghost use Rattle.theory_syntax.specs.Process as pure;
ghost use Rattle.theory_syntax.specs.Process.{SlidingChoice};
ghost use Rattle.theory_semantics.specs.Meaning.Unfolding.{settled};
ghost use Rattle.csp_steps.specs.Answering.{Answers, answers_of, target_of, within_limits};
ghost use Rattle.csp_steps.specs.Composing.{AreSidesOf, composition_of, left_or_away_answers, side_answers};

use crate::composition::Composition;
use crate::context::{Context, Hand};
use crate::leave;
use crate::rule_step::{RuleStep, Target, add_step};
use crate::side::Side;
use csp_expression::NoValue;
use csp_term::{Action, AllocHandle, Memory};

/// The steps of `P [> Q` by those of its sides, or the first cause of both. `away` is what it becomes by itself: `Q`, settled.
/// `Memory` says that there is no room.
pub fn by_sides<A: AllocHandle>(
    alloc: A,
    sides: Result<(Side<A>, Side<A>), NoValue>,
    away: Target<A>,
) -> Result<Vec<RuleStep<A>, A>, NoValue>
    ensures { (s : pure.Script) (p q : pure.Process) → AreSidesOf s p q sides
        → target_of away ≡ within_limits (settled s q) → Answers s (SlidingChoice p q) result }
{
    let (left, right) = sides?;
    let composition = Composition::Sliding;
    let steps = under(alloc, &composition, left, right, away);
    drop(composition);
    Ok(steps?)
}

/// The operator that a visible action of the left side leaves, with a tau that leads away. Of the right side no step is
/// taken.
fn under<A: AllocHandle>(
    alloc: A,
    composition: &Composition<A>,
    left: Side<A>,
    right: Side<A>,
    away: Target<A>,
) -> Result<Vec<RuleStep<A>, A>, Memory>
    ensures { IfOk result (λ steps. answers_of steps
        ≡ left_or_away_answers (composition_of composition.now) (side_answers left)
        (target_of right.process) (target_of away)) }
{
    let mut steps = Vec::new(alloc);
    let context = Context {
        composition,
        hand: Hand::Left,
        other: &right.process,
        next: &right.process,
    };
    leave::add(alloc, context, left.steps, &mut steps)?;
    add_step(Action::Tau, away, &mut steps)?;
    Ok(steps)
}
