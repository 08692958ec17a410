//! A call goes by tau to the body of its equation, with the values of the arguments put in for the parameters, and settled.

ghost use Rattle.theory_syntax.specs.Expression.{to_expressions};
ghost use Rattle.theory_syntax.specs.Process.{Call};
ghost use Rattle.csp_expression.specs.Expression.{expressions_of};
ghost use Rattle.csp_steps.specs.UnderBindings.{AnswersUnder};

use crate::rule_step::{RuleStep, one_step};
use crate::rules::settled::settled_body;
use csp_expression::{Binding, Expr, NoValue};
use csp_settling::called;
use csp_term::{Action, AllocHandle, EquationId, ScriptParts};

pub(crate) fn steps<A: AllocHandle>(
    alloc: A,
    script: &ScriptParts<A>,
    bindings: &[Binding<'_, A>],
    equation: EquationId,
    arguments: &[Expr<A>],
) -> Result<Vec<RuleStep<A>, A>, NoValue>
    ensures { AnswersUnder script.now bindings.now
        (Call equation.0 (to_expressions (expressions_of arguments.now))) result }
{
    let body = called(alloc, script, bindings, equation, arguments)?;
    let target = settled_body(alloc, script, body)?;
    Ok(one_step(alloc, Action::Tau, target)?)
}
