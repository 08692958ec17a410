//! A guarded process does what its body does, where the condition is true.

ghost use Rattle.theory_syntax.specs.Process.{Guard};
ghost use Rattle.csp_expression.specs.Expression.{expression_of};
ghost use Rattle.csp_term.specs.Term.{process_of};
ghost use Rattle.csp_steps.specs.UnderBindings.{AnswersUnder};

use crate::rule_step::RuleStep;
use crate::rules;
use csp_expression::{Binding, Expr, NoValue};
use csp_settling::condition;
use csp_term::{AllocHandle, ScriptParts, Term};

#[cycle(steps)]
pub(crate) fn steps<'v, A: AllocHandle>(
    alloc: A,
    script: &'v ScriptParts<A>,
    bindings: &[Binding<'v, A>],
    test: &'v Expr<A>,
    body: &'v Term<A>,
) -> Result<Vec<RuleStep<A>, A>, NoValue>
    ensures { AnswersUnder script.now bindings.now
        (Guard (expression_of test.now) (process_of body.now)) result }
{
    if condition(alloc, &script.types, bindings, test)? {
        rules::steps(alloc, script, bindings, body)
    } else {
        Ok(Vec::new(alloc))
    }
}
