//! Values that expressions have or lack.

ghost use Rattle.std.specs.Prelude.{◌≡◌, IfOk};
ghost use Rattle.std.specs.Option.{option_map};
ghost use Rattle.std.specs.Result.{result_err};
ghost use Rattle.theory_semantics.specs.Meaning.Evaluation.{value};
ghost use Rattle.theory_faults.specs.Expressions.{as_value, with_values};
ghost use Rattle.csp_expression.specs.Cause.{cause_of};
ghost use Rattle.csp_expression.specs.Evaluation.{table_of};
ghost use Rattle.csp_expression.specs.Expression.{expression_of};
ghost use Rattle.csp_faults.specs.Asked.{IsFound};

use csp_expression::{Cause, Expr, NoValue, TypeTable};
use csp_value::{Memory, Value};
use std::alloc::Allocator;

/// The cause for which the expression has no value, if it has none.
pub(crate) fn lacking<A: Allocator + Copy>(
    alloc: A,
    types: &TypeTable<A>,
    expression: &Expr<A>,
) -> Result<Option<Cause>, Memory>
    ensures { IfOk result (λ why. option_map cause_of why
        ≡ result_err (value (table_of types.now) (expression_of expression.now))) }
{
    match expression.find_value(alloc, types) {
        Ok(_) => Ok(None),
        Err(NoValue::Cause(cause)) => Ok(Some(cause)),
        Err(NoValue::Memory) => Err(Memory),
    }
}

/// The operand as its value, where it has one.
fn as_value<A: Allocator + Copy>(
    alloc: A,
    types: &TypeTable<A>,
    operand: &Expr<A>,
) -> Result<Expr<A>, Memory>
    ensures { IfOk result (λ made. expression_of made
        ≡ as_value (table_of types.now) (expression_of operand.now)) }
{
    match operand.find_value(alloc, types) {
        Ok(value) => Ok(Expr::Literal(value)),
        Err(NoValue::Cause(_)) => operand.try_copy(alloc),
        Err(NoValue::Memory) => Err(Memory),
    }
}

/// The expression with the values of its operands, if it is an operator.
pub(crate) fn with_values<A: Allocator + Copy>(
    alloc: A,
    types: &TypeTable<A>,
    expression: &Expr<A>,
) -> Result<Expr<A>, Memory>
    ensures { IfOk result (λ made. expression_of made
        ≡ with_values (table_of types.now) (expression_of expression.now)) }
{
    match expression {
        Expr::Apply(operator, operand) => {
            let operand = as_value(alloc, types, operand)?;
            Ok(Expr::Apply(*operator, Box::new(alloc, operand)?))
        }
        Expr::Combine(operator, left, right) => {
            let left = as_value(alloc, types, left)?;
            let right = as_value(alloc, types, right)?;
            Ok(Expr::Combine(*operator, Box::new(alloc, left)?, Box::new(alloc, right)?))
        }
        Expr::Range(from, to) => {
            let from = as_value(alloc, types, from)?;
            let to = as_value(alloc, types, to)?;
            Ok(Expr::Range(Box::new(alloc, from)?, Box::new(alloc, to)?))
        }
        _ => expression.try_copy(alloc),
    }
}

/// The value of the expression, if it has one.
pub(crate) fn found_value<A: Allocator + Copy>(
    alloc: A,
    types: &TypeTable<A>,
    expression: &Expr<A>,
) -> Result<Option<Value<A>>, Memory>
    ensures { IfOk result (λ found. IsFound found
        (value (table_of types.now) (expression_of expression.now))) }
{
    match expression.find_value(alloc, types) {
        Ok(value) => Ok(Some(value)),
        Err(NoValue::Cause(_)) => Ok(None),
        Err(NoValue::Memory) => Err(Memory),
    }
}
