//! The body that a call stands for.

ghost use Rattle.std.specs.Prelude.{IfOk, IfSome, IsTrue};
ghost use Rattle.theory_syntax.specs.Expression.{to_expressions};
ghost use Rattle.theory_semantics.specs.Meaning.Events.{called};
ghost use Rattle.theory_semantics.specs.Meaning.Limits.{fits};
ghost use Rattle.theory_semantics.specs.Meaning.Substitution.{put_expressions};
ghost use Rattle.csp_expression.specs.Bindings.{bindings_of};
ghost use Rattle.csp_expression.specs.Expression.{expressions_of};
ghost use Rattle.csp_term.specs.Script.{script_of_parts};
ghost use Rattle.csp_term.specs.Term.{process_of};
ghost use Rattle.csp_settling.specs.Settling.{IsCalled};

use crate::arguments::{argument_values, parameter_bindings};
use csp_expression::{Binding, Expr, NoValue};
use csp_term::{Cause, EquationId, ScriptParts, Term, TermFault};
use std::alloc::Allocator;

/// The body of the equation with the values of the arguments put in for the parameters, if it is within the limits, or
/// the first cause why the call has none.
pub fn called<A: Allocator + Copy>(
    alloc: A,
    script: &ScriptParts<A>,
    bindings: &[Binding<'_, A>],
    equation: EquationId,
    arguments: &[Expr<A>],
) -> Result<Option<Term<A>>, NoValue>
    ensures within { IfOk result (λ body. IfSome body (λ t. IsTrue (fits (process_of t)))) }
    ensures body { IsCalled result (called (script_of_parts script.now) equation.0
        (put_expressions (bindings_of bindings.now)
        (to_expressions (expressions_of arguments.now)))) }
{
    let values = argument_values(alloc, &script.types, bindings, arguments)?;
    let Some(called) = script.equations.get(equation.0 as usize) else {
        return Err(NoValue::Cause(Cause::Kind));
    };
    let parameters = parameter_bindings(alloc, &called.parameters, &values)?;
    match called.body.subst(alloc, &parameters) {
        Ok(body) => Ok(Some(body)),
        Err(TermFault::TooLarge) => Ok(None),
        Err(TermFault::Memory) => Err(NoValue::Memory),
    }
}
