//! Sequences.

ghost use Rattle.std.specs.Prelude.{◌≡◌, ◌++◌, pos, IfOk};
ghost use Rattle.theory_syntax.specs.Expression as pure;
ghost use Rattle.theory_semantics.specs.Meaning.Evaluation.{apply, combine, integer, sequence};
ghost use Rattle.csp_value.specs.Value.{value_of, values_of};
ghost use Rattle.csp_expression.specs.Evaluation.{Gives, IsAnswer, IsSeen, seen_value};

use crate::cause::Cause;
use crate::no_value::NoValue;
use crate::seen::Seen;
use csp_value::{Memory, Value};
use std::alloc::Allocator;

/// The most items of a sequence, and the most members of a set.
pub(crate) const MAX_MEMBERS: usize = 1024;

/// The sequence of the values, or `Overflow` where they are more than 1,024.
pub(crate) fn sequence<A: Allocator>(items: Vec<Value<A>, A>) -> Result<Value<A>, Cause>
    ensures { IsAnswer result (sequence (values_of items.items)) }
{
    if items.len() > MAX_MEMBERS {
        return Err(Cause::Overflow);
    }
    Ok(Value::Seq(items))
}

/// The number of things, or `Overflow` where 32 bits do not hold it.
pub(crate) fn count<A: Allocator>(things: usize) -> Result<Value<A>, Cause>
    ensures { IsAnswer result (integer (pos things)) }
{
    match i32::try_from(things) {
        Ok(number) => Ok(Value::Int(number)),
        Err(_) => Err(Cause::Overflow),
    }
}

/// `#e`, or `Overflow`.
pub(crate) fn length<A: Allocator>(operand: &Value<A>) -> Result<Value<A>, Cause>
    ensures { IsAnswer result (apply pure.Length (value_of operand.now)) }
{
    match operand {
        Value::Seq(items) => count(items.len()),
        _ => Err(Cause::Kind),
    }
}

/// `null(e)`
pub(crate) fn is_null<A: Allocator>(operand: &Value<A>) -> Result<Value<A>, Cause>
    ensures { IsAnswer result (apply pure.IsNull (value_of operand.now)) }
{
    match operand {
        Value::Seq(items) => Ok(Value::Bool(items.is_empty())),
        _ => Err(Cause::Kind),
    }
}

/// `head(e)`, or `Empty`. Of a sequence that is lent the item is lent too.
pub(crate) fn head<'e, A: Allocator>(operand: Seen<'e, A>) -> Result<Seen<'e, A>, Cause>
    ensures { IsSeen result (apply pure.Head (seen_value operand.entry)) }
{
    match operand {
        Seen::Lent(Value::Seq(items)) => match items.first() {
            Some(item) => Ok(Seen::Lent(item)),
            None => Err(Cause::Empty),
        },
        Seen::Made(Value::Seq(items)) => match items.into_iter().next() {
            Some(item) => Ok(Seen::Made(item)),
            None => Err(Cause::Empty),
        },
        _ => Err(Cause::Kind),
    }
}

/// `tail(e)`, or `Empty`.
pub(crate) fn tail<A: Allocator>(operand: Value<A>) -> Result<Value<A>, Cause>
    ensures { IsAnswer result (apply pure.Tail (value_of operand)) }
{
    match operand {
        Value::Seq(mut items) => {
            if items.is_empty() {
                return Err(Cause::Empty);
            }
            let _head = items.remove(0);
            Ok(Value::Seq(items))
        }
        _ => Err(Cause::Kind),
    }
}

/// `e ^ f`, or `Overflow` where the items are more than 1,024.
pub(crate) fn concatenate<A: Allocator>(
    left: Value<A>,
    right: Value<A>,
) -> Result<Value<A>, NoValue>
    ensures { Gives result (combine pure.Concatenate (value_of left) (value_of right)) }
{
    match (left, right) {
        (Value::Seq(left), Value::Seq(right)) => Ok(sequence(joined(left, right)?)?),
        _ => Err(NoValue::Cause(Cause::Kind)),
    }
}

/// The items of both, or `Memory`.
fn joined<A: Allocator>(
    left: Vec<Value<A>, A>,
    right: Vec<Value<A>, A>,
) -> Result<Vec<Value<A>, A>, Memory>
    ensures { IfOk result (λ both. both.items ≡ left.items ++ right.items) }
{
    let mut both = left;
    let mut others = right;
    both.append(&mut others)?;
    Ok(both)
}

/// `elem(e, f)`
pub(crate) fn is_element<A: Allocator>(
    value: &Value<A>,
    sequence: &Value<A>,
) -> Result<Value<A>, Cause>
    ensures { IsAnswer result (combine pure.IsElement (value_of value.now)
        (value_of sequence.now)) }
{
    match sequence {
        Value::Seq(items) => Ok(Value::Bool(items.contains(value))),
        _ => Err(Cause::Kind),
    }
}
