//! Comparisons: equality of any two values, and the order of numbers.

ghost use Rattle.theory_syntax.specs.Expression as pure;
ghost use Rattle.theory_semantics.specs.Meaning.Evaluation.{combine};
ghost use Rattle.csp_value.specs.Value.{value_of};
ghost use Rattle.csp_expression.specs.Evaluation.{IsAnswer};

use crate::cause::Cause;
use csp_value::Value;
use std::alloc::Allocator;

/// `e == f`
pub(crate) fn equals<A: Allocator>(left: &Value<A>, right: &Value<A>) -> Result<Value<A>, Cause>
    ensures { IsAnswer result (combine pure.Equals (value_of left.now) (value_of right.now)) }
{
    Ok(Value::Bool(left == right))
}

/// `e != f`
pub(crate) fn differs<A: Allocator>(left: &Value<A>, right: &Value<A>) -> Result<Value<A>, Cause>
    ensures { IsAnswer result (combine pure.Differs (value_of left.now) (value_of right.now)) }
{
    Ok(Value::Bool(left != right))
}

/// `e < f`
pub(crate) fn less_than<A: Allocator>(left: &Value<A>, right: &Value<A>) -> Result<Value<A>, Cause>
    ensures { IsAnswer result (combine pure.LessThan (value_of left.now) (value_of right.now)) }
{
    match (left, right) {
        (Value::Int(left), Value::Int(right)) => Ok(Value::Bool(left < right)),
        _ => Err(Cause::Kind),
    }
}

/// `e <= f`
pub(crate) fn at_most<A: Allocator>(left: &Value<A>, right: &Value<A>) -> Result<Value<A>, Cause>
    ensures { IsAnswer result (combine pure.AtMost (value_of left.now) (value_of right.now)) }
{
    match (left, right) {
        (Value::Int(left), Value::Int(right)) => Ok(Value::Bool(left <= right)),
        _ => Err(Cause::Kind),
    }
}

/// `e > f`
pub(crate) fn greater_than<A: Allocator>(
    left: &Value<A>,
    right: &Value<A>,
) -> Result<Value<A>, Cause>
    ensures { IsAnswer result (combine pure.GreaterThan (value_of left.now) (value_of right.now)) }
{
    match (left, right) {
        (Value::Int(left), Value::Int(right)) => Ok(Value::Bool(left > right)),
        _ => Err(Cause::Kind),
    }
}

/// `e >= f`
pub(crate) fn at_least<A: Allocator>(left: &Value<A>, right: &Value<A>) -> Result<Value<A>, Cause>
    ensures { IsAnswer result (combine pure.AtLeast (value_of left.now) (value_of right.now)) }
{
    match (left, right) {
        (Value::Int(left), Value::Int(right)) => Ok(Value::Bool(left >= right)),
        _ => Err(Cause::Kind),
    }
}
