//! The values of the arguments of a call, and what the parameters then stand for.

ghost use Rattle.std.specs.Prelude.{map};
ghost use Rattle.theory_syntax.specs.Expression.{to_expressions};
ghost use Rattle.theory_semantics.specs.Meaning.Evaluation.{values};
ghost use Rattle.theory_semantics.specs.Meaning.Events.{parameter_bindings};
ghost use Rattle.theory_semantics.specs.Meaning.Substitution.{put_expressions};
ghost use Rattle.csp_expression.specs.Bindings.{bindings_of};
ghost use Rattle.csp_expression.specs.Evaluation.{table_of};
ghost use Rattle.csp_expression.specs.Expression.{expressions_of};
ghost use Rattle.csp_settling.specs.Arguments.{Binds, SeesAll, seen_values};

use csp_expression::{Binding, Expr, NoValue, Seen, TypeTable};
use csp_term::{Cause, Name};
use std::alloc::Allocator;

/// The value of each argument with the values put in, lent where it lies in it or in a binding, or the first cause.
pub fn argument_values<'e, A: Allocator + Copy>(
    alloc: A,
    types: &TypeTable<A>,
    bindings: &[Binding<'e, A>],
    arguments: &'e [Expr<A>],
) -> Result<Vec<Seen<'e, A>, A>, NoValue>
    ensures { SeesAll result (values (table_of types.now)
        (put_expressions (bindings_of bindings.now)
        (to_expressions (expressions_of arguments.now)))) }
{
    let mut values = Vec::new(alloc);
    for argument in arguments {
        values.push(argument.look(alloc, types, bindings)?)?;
    }
    Ok(values)
}

/// The parameters with the values of the arguments, or `Kind` where there are not as many.
pub fn parameter_bindings<'v, A: Allocator + Copy>(
    alloc: A,
    parameters: &[Name],
    values: &'v [Seen<'v, A>],
) -> Result<Vec<Binding<'v, A>, A>, NoValue>
    ensures { Binds result (parameter_bindings (map (λ n. n.0) parameters.now)
        (seen_values values.now)) }
{
    if parameters.len() != values.len() {
        return Err(NoValue::Cause(Cause::Kind));
    }
    let mut bindings = Vec::new(alloc);
    for (place, name) in parameters.iter().enumerate() {
        let value = values[place].value();
        bindings.push(Binding { name: *name, value })?;
    }
    Ok(bindings)
}
