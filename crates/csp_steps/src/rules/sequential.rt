//! `P ; Q` by the steps of `P`.

ghost use Rattle.theory_syntax.specs.Process.{Sequential};
ghost use Rattle.csp_term.specs.Term.{process_of};
ghost use Rattle.csp_steps.specs.UnderBindings.{AnswersUnder};

use crate::rule_step::{RuleStep, Target};
use crate::rules::settled::put_in_place;
use crate::{rules, sequential};
use csp_expression::{Binding, NoValue};
use csp_term::{AllocHandle, ScriptParts, Term};

#[cycle(steps)]
pub(crate) fn steps<'v, A: AllocHandle>(
    alloc: A,
    script: &'v ScriptParts<A>,
    bindings: &[Binding<'v, A>],
    left: &'v Term<A>,
    right: &'v Term<A>,
) -> Result<Vec<RuleStep<A>, A>, NoValue>
    ensures { AnswersUnder script.now bindings.now
        (Sequential (process_of left.now) (process_of right.now)) result }
{
    let next = put_in_place(alloc, script, bindings, right)?;
    let right = Target::put_in(alloc, right, bindings)?;
    let left = rules::steps(alloc, script, bindings, left);
    sequential::by_left(alloc, left, &right, &next)
}
