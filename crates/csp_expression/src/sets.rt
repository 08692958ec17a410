//! Sets.

ghost use Rattle.theory_syntax.specs.Expression as pure;
ghost use Rattle.theory_syntax.specs.Value.{sorted_values, values_list};
ghost use Rattle.theory_semantics.specs.Meaning.Evaluation.{apply, combine, set_of};
ghost use Rattle.csp_value.specs.Value.{members_of, value_of, values_of};
ghost use Rattle.csp_expression.specs.Evaluation.{Gives, IsAnswer};

use crate::cause::Cause;
use crate::no_value::NoValue;
use crate::sequences::{MAX_MEMBERS, count};
use csp_value::{SetOf, Value};
use std::alloc::Allocator;

/// The set as a value, or `Overflow` where it has more than 1,024 members.
pub(crate) fn set<A: Allocator>(set: SetOf<A>) -> Result<Value<A>, Cause>
    ensures { IsAnswer result (set_of (values_list (members_of set))) }
{
    if set.members().len() > MAX_MEMBERS {
        return Err(Cause::Overflow);
    }
    Ok(Value::Set(set))
}

/// `{e, ..}`: the set of the values, of which each counts once, or `Overflow`.
pub(crate) fn set_of_values<A: Allocator>(values: Vec<Value<A>, A>) -> Result<Value<A>, Cause>
    ensures { IsAnswer result (set_of (sorted_values (values_of values.items))) }
{
    set(SetOf::from_values(values))
}

/// `card(e)`, or `Overflow`.
pub(crate) fn card<A: Allocator>(operand: &Value<A>) -> Result<Value<A>, Cause>
    ensures { IsAnswer result (apply pure.Card (value_of operand.now)) }
{
    match operand {
        Value::Set(set) => count(set.members().len()),
        _ => Err(Cause::Kind),
    }
}

/// `member(e, f)`
pub(crate) fn is_member<A: Allocator>(value: &Value<A>, set: &Value<A>) -> Result<Value<A>, Cause>
    ensures { IsAnswer result (combine pure.IsMember (value_of value.now) (value_of set.now)) }
{
    match set {
        Value::Set(set) => Ok(Value::Bool(set.contains(value))),
        _ => Err(Cause::Kind),
    }
}

/// `union(e, f)`, or `Overflow`.
pub(crate) fn union<A: Allocator>(left: Value<A>, right: Value<A>) -> Result<Value<A>, NoValue>
    ensures { Gives result (combine pure.Union (value_of left) (value_of right)) }
{
    match (left, right) {
        (Value::Set(left), Value::Set(right)) => Ok(set(left.union(right)?)?),
        _ => Err(NoValue::Cause(Cause::Kind)),
    }
}

/// `inter(e, f)`
pub(crate) fn intersection<A: Allocator>(
    left: Value<A>,
    right: &Value<A>,
) -> Result<Value<A>, Cause>
    ensures { IsAnswer result (combine pure.Intersection (value_of left) (value_of right.now)) }
{
    match (left, right) {
        (Value::Set(left), Value::Set(right)) => set(left.intersection(right)),
        _ => Err(Cause::Kind),
    }
}

/// `diff(e, f)`
pub(crate) fn difference<A: Allocator>(left: Value<A>, right: &Value<A>) -> Result<Value<A>, Cause>
    ensures { IsAnswer result (combine pure.Difference (value_of left) (value_of right.now)) }
{
    match (left, right) {
        (Value::Set(left), Value::Set(right)) => set(left.difference(right)),
        _ => Err(Cause::Kind),
    }
}
