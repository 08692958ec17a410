//! Arithmetic on numbers of 32 bits.

ghost use Rattle.std.specs.Prelude.{ℤ, FitsSigned};
ghost use Rattle.std.specs.Int.{w32};
ghost use Rattle.std.specs.Option.{SomeIff};
ghost use Rattle.theory_syntax.specs.Expression as pure;
ghost use Rattle.theory_semantics.specs.Meaning.Evaluation.{apply, combine, integer};
ghost use Rattle.csp_value.specs.Value.{value_of};
ghost use Rattle.csp_expression.specs.Evaluation.{IsAnswer};

use crate::cause::Cause;
use csp_value::Value;
use std::alloc::Allocator;

/// `-e`. `Overflow` where `e` is the least number.
pub(crate) fn negate<A: Allocator>(operand: &Value<A>) -> Result<Value<A>, Cause>
    ensures { IsAnswer result (apply pure.Negate (value_of operand.now)) }
{
    match operand {
        Value::Int(number) => in_range(number.checked_neg()),
        _ => Err(Cause::Kind),
    }
}

/// `e + f`, or `Overflow`.
pub(crate) fn add<A: Allocator>(left: &Value<A>, right: &Value<A>) -> Result<Value<A>, Cause>
    ensures { IsAnswer result (combine pure.Add (value_of left.now) (value_of right.now)) }
{
    match (left, right) {
        (Value::Int(left), Value::Int(right)) => in_range(left.checked_add(*right)),
        _ => Err(Cause::Kind),
    }
}

/// `e - f`, or `Overflow`.
pub(crate) fn subtract<A: Allocator>(left: &Value<A>, right: &Value<A>) -> Result<Value<A>, Cause>
    ensures { IsAnswer result (combine pure.Subtract (value_of left.now) (value_of right.now)) }
{
    match (left, right) {
        (Value::Int(left), Value::Int(right)) => in_range(left.checked_sub(*right)),
        _ => Err(Cause::Kind),
    }
}

/// `e * f`, or `Overflow`.
pub(crate) fn multiply<A: Allocator>(left: &Value<A>, right: &Value<A>) -> Result<Value<A>, Cause>
    ensures { IsAnswer result (combine pure.Multiply (value_of left.now) (value_of right.now)) }
{
    match (left, right) {
        (Value::Int(left), Value::Int(right)) => in_range(left.checked_mul(*right)),
        _ => Err(Cause::Kind),
    }
}

/// `e % f`: the number from 0 to `f` - 1 that differs from `e` by a multiple of `f`. `Modulus` where `f` is not
/// positive.
pub(crate) fn remainder<A: Allocator>(left: &Value<A>, right: &Value<A>) -> Result<Value<A>, Cause>
    ensures { IsAnswer result (combine pure.Modulus (value_of left.now) (value_of right.now)) }
{
    match (left, right) {
        (Value::Int(_), Value::Int(modulus)) if *modulus <= 0 => Err(Cause::Modulus),
        (Value::Int(number), Value::Int(modulus)) => Ok(Value::Int(number.rem_euclid(*modulus))),
        _ => Err(Cause::Kind),
    }
}

/// The number, or `Overflow` where 32 bits do not hold it.
fn in_range<A: Allocator>(number: Option<i32>) -> Result<Value<A>, Cause>
    ensures { (exact : ℤ) → SomeIff number (FitsSigned w32 exact) exact
        → IsAnswer result (integer exact) }
{
    match number {
        Some(number) => Ok(Value::Int(number)),
        None => Err(Cause::Overflow),
    }
}
