//! Truth values and what connects them.

ghost use Rattle.std.specs.Prelude.{◌≡◌};
ghost use Rattle.theory_syntax.specs.Expression as pure;
ghost use Rattle.theory_syntax.specs.Operators.{binary_of};
ghost use Rattle.theory_semantics.specs.Meaning.Evaluation.{apply, combine, decides};
ghost use Rattle.csp_value.specs.Value.{value_of};
ghost use Rattle.csp_expression.specs.Evaluation.{IsAnswer};

use crate::cause::Cause;
use csp_value::Value;
use std::alloc::Allocator;
use theory_syntax::BinaryOperator;

/// `not e`
pub(crate) fn negation<A: Allocator>(operand: &Value<A>) -> Result<Value<A>, Cause>
    ensures { IsAnswer result (apply pure.Not (value_of operand.now)) }
{
    match operand {
        Value::Bool(truth) => Ok(Value::Bool(!truth)),
        _ => Err(Cause::Kind),
    }
}

/// Whether the left operand alone is the answer, as false is of `and`, and true of `or`.
pub(crate) fn decides<A: Allocator>(operator: BinaryOperator, left: &Value<A>) -> bool
    ensures { result ≡ decides (binary_of operator) (value_of left.now) }
{
    match (operator, left) {
        (BinaryOperator::And, Value::Bool(truth)) => !truth,
        (BinaryOperator::Or, Value::Bool(truth)) => *truth,
        _ => false,
    }
}

/// `e and f`
pub(crate) fn conjunction<A: Allocator>(
    left: &Value<A>,
    right: &Value<A>,
) -> Result<Value<A>, Cause>
    ensures { IsAnswer result (combine pure.And (value_of left.now) (value_of right.now)) }
{
    match (left, right) {
        (Value::Bool(left), Value::Bool(right)) => Ok(Value::Bool(*left && *right)),
        _ => Err(Cause::Kind),
    }
}

/// `e or f`
pub(crate) fn disjunction<A: Allocator>(
    left: &Value<A>,
    right: &Value<A>,
) -> Result<Value<A>, Cause>
    ensures { IsAnswer result (combine pure.Or (value_of left.now) (value_of right.now)) }
{
    match (left, right) {
        (Value::Bool(left), Value::Bool(right)) => Ok(Value::Bool(*left || *right)),
        _ => Err(Cause::Kind),
    }
}
