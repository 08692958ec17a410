//! `SKIP` ends by tick.

ghost use Rattle.theory_syntax.specs.Process.{Skip};
ghost use Rattle.csp_steps.specs.Answering.{AnswersIn};

use crate::rule_step::{RuleStep, Target, one_step};
use csp_expression::NoValue;
use csp_term::{Action, AllocHandle, ScriptParts, Term, TermForm};

pub(crate) fn steps<A: AllocHandle>(
    alloc: A,
    script: &ScriptParts<A>,
) -> Result<Vec<RuleStep<A>, A>, NoValue>
    ensures { AnswersIn script.now Skip result }
{
    let _script = script;
    let target = Target::Within(Term::new(alloc, TermForm::Omega)?);
    Ok(one_step(alloc, Action::Tick, target)?)
}
