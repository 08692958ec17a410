//! Sets that are named: ranges of numbers, both truth values, datatypes and nametypes.

ghost use Rattle.std.specs.Prelude.{◌≡◌, ◌≤◌, ◌∷◌, [], true, false, map, slice_get};
ghost use Rattle.theory_syntax.specs.Value.{Truth};
ghost use Rattle.theory_semantics.specs.Meaning.Evaluation.{count_between, datatype_set, numbers_from, range, range_of, set_at, set_of};
ghost use Rattle.csp_value.specs.Value.{value_of};
ghost use Rattle.csp_expression.specs.Evaluation.{Gives, members_listed, table_of};

use crate::cause::Cause;
use crate::constructors;
use crate::name::{DatatypeId, NametypeId};
use crate::no_value::NoValue;
use crate::sequences::MAX_MEMBERS;
use crate::sets::set;
use crate::types::TypeTable;
use csp_value::{SetOf, Value};
use std::alloc::Allocator;

/// `{e..f}`, or `Overflow` where those are more than 1,024 numbers.
pub(crate) fn range<A: Allocator + Copy>(
    alloc: A,
    from: &Value<A>,
    to: &Value<A>,
) -> Result<Value<A>, NoValue>
    ensures { Gives result (range_of (value_of from.now) (value_of to.now)) }
{
    match (from, to) {
        (Value::Int(from), Value::Int(to)) => numbers(alloc, *from, *to),
        _ => Err(NoValue::Cause(Cause::Kind)),
    }
}

/// The set of the numbers from one to another, both with them.
fn numbers<A: Allocator + Copy>(alloc: A, from: i32, to: i32) -> Result<Value<A>, NoValue>
    ensures { Gives result (range from to) }
{
    let count = count_between(from, to);
    if count > MAX_MEMBERS as u64 {
        return Err(NoValue::Cause(Cause::Overflow));
    }
    let mut members = Vec::new(alloc);
    for offset in 0..count {
        members.push(Value::Int(from + offset as i32))?;
    }
    Ok(Value::Set(SetOf::from_values(members)))
}

/// How many numbers there are from one to another.
fn count_between(from: i32, to: i32) -> u64
    ensures { result ≡ count_between from to }
{
    if to < from {
        return 0;
    }
    u64::from(to.abs_diff(from)) + 1
}

/// `Bool`
pub(crate) fn booleans<A: Allocator + Copy>(alloc: A) -> Result<Value<A>, NoValue>
    ensures { Gives result (set_of (Truth false ∷ Truth true ∷ [])) }
{
    let mut members = Vec::new(alloc);
    members.push(Value::Bool(false))?;
    members.push(Value::Bool(true))?;
    Ok(Value::Set(SetOf::from_values(members)))
}

/// The set of the datatype's values, or `Overflow` where they are more than 1,024.
pub(crate) fn datatype<A: Allocator + Copy>(
    alloc: A,
    types: &TypeTable<A>,
    datatype: DatatypeId,
) -> Result<Value<A>, NoValue>
    ensures { Gives result (datatype_set (table_of types.now)
        (slice_get (table_of types.now).datatypes datatype.0)) }
{
    match types.datatypes.get(datatype.0 as usize) {
        Some(range) => constructors::all_of(alloc, types, *range),
        None => Err(NoValue::Cause(Cause::Kind)),
    }
}

/// The set that the nametype names, or `Overflow` where it has more than 1,024 members.
pub(crate) fn nametype<A: Allocator + Copy>(
    alloc: A,
    types: &TypeTable<A>,
    nametype: NametypeId,
) -> Result<Value<A>, NoValue>
    ensures { Gives result (set_at (slice_get (table_of types.now).nametypes nametype.0)) }
{
    match types.nametypes.get(nametype.0 as usize) {
        Some(set) => copy_of(alloc, set),
        None => Err(NoValue::Cause(Cause::Kind)),
    }
}

/// A copy of the set as a value, or `Overflow` where it has more than 1,024 members.
fn copy_of<A: Allocator + Copy>(alloc: A, original: &SetOf<A>) -> Result<Value<A>, NoValue>
    ensures { Gives result (set_of (members_listed original.now)) }
{
    let copy = original.try_copy(alloc)?;
    Ok(set(copy)?)
}
