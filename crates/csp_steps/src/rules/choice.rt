//! `P [] Q` by the steps of both sides, and `P |~| Q`, which becomes a side, settled.

ghost use Rattle.theory_syntax.specs.Process.{ExternalChoice, InternalChoice};
ghost use Rattle.csp_term.specs.Term.{process_of};
ghost use Rattle.csp_steps.specs.UnderBindings.{AnswersUnder};

use crate::choice;
use crate::rule_step::RuleStep;
use crate::rules::settled::put_in_place;
use crate::rules::side;
use csp_expression::{Binding, NoValue};
use csp_term::{AllocHandle, ScriptParts, Term};

/// The steps of `P [] Q`.
#[cycle(steps)]
pub(crate) fn external<'v, A: AllocHandle>(
    alloc: A,
    script: &'v ScriptParts<A>,
    bindings: &[Binding<'v, A>],
    left: &'v Term<A>,
    right: &'v Term<A>,
) -> Result<Vec<RuleStep<A>, A>, NoValue>
    ensures { AnswersUnder script.now bindings.now
        (ExternalChoice (process_of left.now) (process_of right.now)) result }
{
    let sides = side::both(alloc, script, bindings, left, right);
    choice::by_sides(alloc, sides)
}

/// The steps of `P |~| Q`.
pub(crate) fn internal<'v, A: AllocHandle>(
    alloc: A,
    script: &'v ScriptParts<A>,
    bindings: &[Binding<'v, A>],
    left: &'v Term<A>,
    right: &'v Term<A>,
) -> Result<Vec<RuleStep<A>, A>, NoValue>
    ensures { AnswersUnder script.now bindings.now
        (InternalChoice (process_of left.now) (process_of right.now)) result }
{
    let left = put_in_place(alloc, script, bindings, left)?;
    let right = put_in_place(alloc, script, bindings, right)?;
    Ok(choice::taus(alloc, left, right)?)
}
