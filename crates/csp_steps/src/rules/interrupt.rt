//! `P /\ Q` by the steps of both sides.

ghost use Rattle.theory_syntax.specs.Process.{Interrupt};
ghost use Rattle.csp_term.specs.Term.{process_of};
ghost use Rattle.csp_steps.specs.UnderBindings.{AnswersUnder};

use crate::interrupt;
use crate::rule_step::RuleStep;
use crate::rules::side;
use csp_expression::{Binding, NoValue};
use csp_term::{AllocHandle, ScriptParts, Term};

#[cycle(steps)]
pub(crate) fn steps<'v, A: AllocHandle>(
    alloc: A,
    script: &'v ScriptParts<A>,
    bindings: &[Binding<'v, A>],
    left: &'v Term<A>,
    right: &'v Term<A>,
) -> Result<Vec<RuleStep<A>, A>, NoValue>
    ensures { AnswersUnder script.now bindings.now
        (Interrupt (process_of left.now) (process_of right.now)) result }
{
    let sides = side::both(alloc, script, bindings, left, right);
    interrupt::by_sides(alloc, sides)
}
