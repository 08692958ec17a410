//! Constructors with their fields, and all of a datatype.

ghost use Rattle.std.specs.Prelude.{◌≡◌, ◌++◌, ◌∷◌, ◌↔◌, IfOk, IsTrue, Some};
ghost use Rattle.theory_semantics.specs.Meaning.Evaluation.{choices, constructed, constructor_sets, datatype_set, with_all_fields};
ghost use Rattle.csp_value.specs.Fields.{field_values, sets_of};
ghost use Rattle.csp_value.specs.Value.{value_of, values_of};
ghost use Rattle.csp_expression.specs.Choosing.{AreFieldSets, HasAll, HasEmptySet, lists_of, with_each, with_first};
ghost use Rattle.csp_expression.specs.Evaluation.{Gives, IsAnswer, constructors_of, table_of};

use crate::cause::Cause;
use crate::no_value::NoValue;
use crate::sequences::MAX_MEMBERS;
use crate::sets::set_of_values;
use crate::types::{Constructors, TypeTable};
use csp_value::{ConId, FieldSet, Memory, Value, copy_values};
use std::alloc::Allocator;

/// The sets of the constructor's fields, or the cause `Kind` where the table has none for it.
pub(crate) fn field_sets<A: Allocator>(
    types: &TypeTable<A>,
    constructor: ConId,
) -> Result<&[FieldSet<A>], NoValue>
    ensures { AreFieldSets result (constructor_sets (table_of types.now) constructor.0) }
{
    match types.constructors.get(constructor.0 as usize) {
        Some(fields) => Ok(&fields.sets),
        None => Err(NoValue::Cause(Cause::Kind)),
    }
}

/// The constructor with these values, or the cause `Kind` where it has another number of fields.
pub(crate) fn constructed<A: Allocator>(
    constructor: ConId,
    sets: &[FieldSet<A>],
    fields: Vec<Value<A>, A>,
) -> Result<Value<A>, Cause>
    ensures { IsAnswer result (constructed constructor.0 (sets_of sets.now)
        (values_of fields.items)) }
{
    if fields.len() != sets.len() {
        return Err(Cause::Kind);
    }
    Ok(Value::Con(constructor, fields))
}

/// The set of the constructors, each with all values of its fields, or `Overflow` where those are more than 1,024. The
/// cause `Kind` where the table has no fields for one of them.
pub(crate) fn all_of<A: Allocator + Copy>(
    alloc: A,
    types: &TypeTable<A>,
    range: Constructors,
) -> Result<Value<A>, NoValue>
    ensures { Gives result (datatype_set (table_of types.now) (Some (constructors_of range))) }
{
    let first = range.first.0 as usize;
    let count = range.following as usize + 1;
    if first + count > types.constructors.len() {
        return Err(NoValue::Cause(Cause::Kind));
    }
    let mut members = Vec::new(alloc);
    for offset in 0..count {
        // No memory holds the fields of more constructors than have a number, so the last arm is never taken.
        match u32::try_from(first + offset) {
            Ok(constructor) => {
                let fields = &types.constructors[first + offset];
                members = add_all(alloc, ConId(constructor), &fields.sets, members)?;
            }
            Err(_) => return Err(NoValue::Memory),
        }
    }
    Ok(set_of_values(members)?)
}

/// Adds the constructor with all values of its fields, or `Overflow` where all are more than 1,024.
fn add_all<A: Allocator + Copy>(
    alloc: A,
    constructor: ConId,
    sets: &[FieldSet<A>],
    members: Vec<Value<A>, A>,
) -> Result<Vec<Value<A>, A>, NoValue>
    ensures { HasAll (λ all. values_of all.items) result
        (values_of members.items ++ with_all_fields constructor.0 (sets_of sets.now)) }
{
    let mut all = members;
    let lists = choices(alloc, sets)?;
    for fields in lists {
        all.push(Value::Con(constructor, fields))?;
    }
    if all.len() > MAX_MEMBERS {
        return Err(NoValue::Cause(Cause::Overflow));
    }
    Ok(all)
}

/// The lists with a value of each set in turn, where the last value changes first. `Overflow` where those are more than
/// 1,024.
fn choices<A: Allocator + Copy>(
    alloc: A,
    sets: &[FieldSet<A>],
) -> Result<Vec<Vec<Value<A>, A>, A>, NoValue>
    ensures { HasAll (λ all. lists_of all.items) result (choices (sets_of sets.now)) }
{
    if has_empty_set(sets) {
        return Ok(Vec::new(alloc));
    }
    let mut all = Vec::new(alloc);
    all.push(Vec::new(alloc))?;
    let mut left = sets.len();
    // No set is empty, so that more lists from here on are more of them in the end.
    while left > 0 {
        left -= 1;
        all = with_each(alloc, &sets[left], &all)?;
    }
    Ok(all)
}

/// Whether one of the sets has no values.
fn has_empty_set<A: Allocator>(sets: &[FieldSet<A>]) -> bool
    ensures { IsTrue result ↔ HasEmptySet (sets_of sets.now) }
{
    for set in sets {
        if set.members().is_empty() {
            return true;
        }
    }
    false
}

/// Each value of the set in front of each of the lists, or `Overflow` where those are more than 1,024.
fn with_each<A: Allocator + Copy>(
    alloc: A,
    set: &FieldSet<A>,
    lists: &[Vec<Value<A>, A>],
) -> Result<Vec<Vec<Value<A>, A>, A>, NoValue>
    ensures { HasAll (λ all. lists_of all.items) result
        (with_each (field_values set.now) (lists_of lists.now)) }
{
    let mut all = Vec::new(alloc);
    for value in set.members() {
        all = add_behind(alloc, value, lists, all)?;
        if all.len() > MAX_MEMBERS {
            return Err(NoValue::Cause(Cause::Overflow));
        }
    }
    Ok(all)
}

/// Adds the lists with the value in front of each.
fn add_behind<A: Allocator + Copy>(
    alloc: A,
    value: &Value<A>,
    lists: &[Vec<Value<A>, A>],
    all: Vec<Vec<Value<A>, A>, A>,
) -> Result<Vec<Vec<Value<A>, A>, A>, Memory>
    ensures { IfOk result (λ more. lists_of more.items
        ≡ lists_of all.items ++ with_first (value_of value.now) (lists_of lists.now)) }
{
    let mut more = all;
    for list in lists {
        more.push(in_front(alloc, value, list)?)?;
    }
    Ok(more)
}

/// A copy of the values, and of the one in front of them.
fn in_front<A: Allocator + Copy>(
    alloc: A,
    value: &Value<A>,
    behind: &[Value<A>],
) -> Result<Vec<Value<A>, A>, Memory>
    ensures { IfOk result (λ all. values_of all.items ≡ value_of value.now ∷ values_of behind.now) }
{
    let mut all = copy_values(alloc, behind)?;
    all.insert(0, value.try_copy(alloc)?)?;
    Ok(all)
}
