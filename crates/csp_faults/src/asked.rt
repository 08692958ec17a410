//! Conditions, and sets whose members are asked for.

ghost use Rattle.std.specs.Prelude.{◌≡◌, IfOk};
ghost use Rattle.theory_semantics.specs.Meaning.Events.{condition, elements, members_of, truth_of};
ghost use Rattle.theory_faults.specs.Culprit.{misfit};
ghost use Rattle.theory_faults.specs.Expressions.{condition_culprit, members, members_culprit};
ghost use Rattle.theory_faults.specs.Processes.{no_choice};
ghost use Rattle.csp_value.specs.Value.{value_of, values_of};
ghost use Rattle.csp_expression.specs.Evaluation.{table_of};
ghost use Rattle.csp_expression.specs.Expression.{expression_of};
ghost use Rattle.csp_faults.specs.Asked.{AreElements, IsPicked};
ghost use Rattle.csp_faults.specs.Culprit.{Finds};

use crate::culprit::Culprit;
use crate::expressions::expression_culprit;
use crate::values::found_value;
use csp_expression::{Expr, Name, TypeTable};
use csp_value::{Memory, Value, copy_values};
use std::alloc::Allocator;

/// What is to blame in a condition.
pub(crate) fn condition_culprit<A: Allocator + Copy>(
    alloc: A,
    types: &TypeTable<A>,
    condition: &Expr<A>,
) -> Result<Option<Culprit<A>>, Memory>
    ensures { Finds result (condition_culprit (table_of types.now) (expression_of condition.now)) }
{
    let found = expression_culprit(alloc, types, condition)?;
    if found.is_some() {
        return Ok(found);
    }
    no_truth(alloc, types, condition)
}

/// That the expression has no truth value.
fn no_truth<A: Allocator + Copy>(
    alloc: A,
    types: &TypeTable<A>,
    test: &Expr<A>,
) -> Result<Option<Culprit<A>>, Memory>
    ensures { Finds result (misfit (condition (table_of types.now) (expression_of test.now))) }
{
    match truth(alloc, types, test)? {
        Some(_) => Ok(None),
        None => Ok(Some(Culprit::Misfit)),
    }
}

/// The truth value of the condition, if it has one.
pub(crate) fn truth<A: Allocator + Copy>(
    alloc: A,
    types: &TypeTable<A>,
    test: &Expr<A>,
) -> Result<Option<bool>, Memory>
    ensures { IfOk result (λ truth. IsPicked truth
        (condition (table_of types.now) (expression_of test.now))) }
{
    match found_value(alloc, types, test)? {
        Some(value) => Ok(truth_of(&value)),
        None => Ok(None),
    }
}

/// The truth value, if it is one.
fn truth_of<A: Allocator>(value: &Value<A>) -> Option<bool>
    ensures { IsPicked result (truth_of (value_of value.now)) }
{
    match value {
        Value::Bool(truth) => Some(*truth),
        _ => None,
    }
}

/// What is to blame in a set whose members are asked for.
pub(crate) fn members_culprit<A: Allocator + Copy>(
    alloc: A,
    types: &TypeTable<A>,
    set: &Expr<A>,
) -> Result<Option<Culprit<A>>, Memory>
    ensures { Finds result (members_culprit (table_of types.now) (expression_of set.now)) }
{
    let found = expression_culprit(alloc, types, set)?;
    if found.is_some() {
        return Ok(found);
    }
    no_members(alloc, types, set)
}

/// That the expression is no set.
fn no_members<A: Allocator + Copy>(
    alloc: A,
    types: &TypeTable<A>,
    set: &Expr<A>,
) -> Result<Option<Culprit<A>>, Memory>
    ensures { Finds result (misfit (elements (table_of types.now) (expression_of set.now))) }
{
    match elements(alloc, types, set)? {
        Some(_) => Ok(None),
        None => Ok(Some(Culprit::Misfit)),
    }
}

/// The members of the set, in order, if it has a value.
fn elements<A: Allocator + Copy>(
    alloc: A,
    types: &TypeTable<A>,
    set: &Expr<A>,
) -> Result<Option<Vec<Value<A>, A>>, Memory>
    ensures { IfOk result (λ values. AreElements values
        (elements (table_of types.now) (expression_of set.now))) }
{
    match found_value(alloc, types, set)? {
        Some(value) => members_of(alloc, &value),
        None => Ok(None),
    }
}

/// Copies of the members, in order, if it is a set.
fn members_of<A: Allocator + Copy>(
    alloc: A,
    value: &Value<A>,
) -> Result<Option<Vec<Value<A>, A>>, Memory>
    ensures { IfOk result (λ values. AreElements values (members_of (value_of value.now))) }
{
    match value {
        Value::Set(set) => Ok(Some(copy_values(alloc, set.members())?)),
        _ => Ok(None),
    }
}

/// The members of the set, in order: none where it has no value.
pub(crate) fn members<A: Allocator + Copy>(
    alloc: A,
    types: &TypeTable<A>,
    set: &Expr<A>,
) -> Result<Vec<Value<A>, A>, Memory>
    ensures { IfOk result (λ values. values_of values.items
        ≡ members (table_of types.now) (expression_of set.now)) }
{
    match elements(alloc, types, set)? {
        Some(values) => Ok(values),
        None => Ok(Vec::new(alloc)),
    }
}

/// That an internal choice gives the name the values of an empty set.
pub(crate) fn no_choice<A: Allocator + Copy>(
    alloc: A,
    types: &TypeTable<A>,
    name: Name,
    set: &Expr<A>,
) -> Result<Option<Culprit<A>>, Memory>
    ensures { Finds result (no_choice name.0 (expression_of set.now)
        (elements (table_of types.now) (expression_of set.now))) }
{
    let Some(values) = elements(alloc, types, set)? else {
        return Ok(None);
    };
    if values.is_empty() {
        return Ok(Some(Culprit::NoChoice(name, set.try_copy(alloc)?)));
    }
    Ok(None)
}
