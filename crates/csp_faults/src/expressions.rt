//! What in an expression is to blame that it has no value.

ghost use Rattle.std.specs.Prelude.{◌≡◌, Err};
ghost use Rattle.std.specs.Option.{option_or};
ghost use Rattle.theory_syntax.specs.Expression.{to_expressions};
ghost use Rattle.theory_semantics.specs.Meaning.Evaluation.{constructor_sets, value};
ghost use Rattle.theory_faults.specs.Culprit.{over_sets};
ghost use Rattle.theory_faults.specs.Expressions.{culprit, first_culprit, given_culprit, or_itself};
ghost use Rattle.csp_value.specs.Fields.{sets_of};
ghost use Rattle.csp_expression.specs.Cause.{cause_of};
ghost use Rattle.csp_expression.specs.Evaluation.{table_of};
ghost use Rattle.csp_expression.specs.Expression.{expression_of, expressions_of};
ghost use Rattle.csp_faults.specs.Culprit.{Finds, found_of, owner_of};

use crate::culprit::{Culprit, Owner};
use crate::declared::constructor_sets;
use crate::given::Place;
use crate::values::{lacking, with_values};
use csp_expression::{Cause, Expr, TypeTable};
use csp_value::{ConId, FieldSet, Memory};
use std::alloc::Allocator;

/// What in the expression is to blame that it has no value, if it has none: the first of its operands without a value
/// that has no such operand itself. `Memory` says nothing of it.
#[cycle(culprit)]
pub fn expression_culprit<A: Allocator + Copy>(
    alloc: A,
    types: &TypeTable<A>,
    expression: &Expr<A>,
) -> Result<Option<Culprit<A>>, Memory>
    ensures { Finds result (culprit (table_of types.now) (expression_of expression.now)) }
{
    let why = lacking(alloc, types, expression)?;
    let Some(cause) = why else {
        return Ok(None);
    };
    match expression {
        Expr::Apply(_, operand) => {
            let found = expression_culprit(alloc, types, operand)?;
            or_itself(alloc, types, expression, cause, found)
        }
        Expr::Combine(_, left, right) => {
            let first = expression_culprit(alloc, types, left)?;
            let found = or_in(alloc, types, right, first)?;
            or_itself(alloc, types, expression, cause, found)
        }
        Expr::Range(from, to) => {
            let first = expression_culprit(alloc, types, from)?;
            let found = or_in(alloc, types, to, first)?;
            or_itself(alloc, types, expression, cause, found)
        }
        Expr::Sequence(items) => {
            let found = first_culprit(alloc, types, items)?;
            or_itself(alloc, types, expression, cause, found)
        }
        Expr::Set(members) => {
            let found = first_culprit(alloc, types, members)?;
            or_itself(alloc, types, expression, cause, found)
        }
        Expr::Constructor(constructor, fields) => {
            let found = constructor_culprit(alloc, types, *constructor, fields)?;
            or_itself(alloc, types, expression, cause, found)
        }
        Expr::Literal(_) | Expr::Name(_) | Expr::Booleans | Expr::Datatype(_) | Expr::Nametype(_) =>
            or_itself(alloc, types, expression, cause, None),
    }
}

/// What was found in the operands of an expression that has no value by this cause, and otherwise itself.
fn or_itself<A: Allocator + Copy>(
    alloc: A,
    types: &TypeTable<A>,
    expression: &Expr<A>,
    cause: Cause,
    found: Option<Culprit<A>>,
) -> Result<Option<Culprit<A>>, Memory>
    ensures { value (table_of types.now) (expression_of expression.now) ≡ Err (cause_of cause)
        → Finds result (or_itself (table_of types.now) (expression_of expression.now)
        (found_of found)) }
{
    if found.is_some() {
        return Ok(found);
    }
    let itself = with_values(alloc, types, expression)?;
    Ok(Some(Culprit::Valueless(itself, cause)))
}

/// What was found before, and otherwise what is to blame in the expression.
#[cycle(culprit)]
fn or_in<A: Allocator + Copy>(
    alloc: A,
    types: &TypeTable<A>,
    expression: &Expr<A>,
    found: Option<Culprit<A>>,
) -> Result<Option<Culprit<A>>, Memory>
    ensures { Finds result (option_or (found_of found)
        (culprit (table_of types.now) (expression_of expression.now))) }
{
    match found {
        Some(culprit) => Ok(Some(culprit)),
        None => expression_culprit(alloc, types, expression),
    }
}

/// What is to blame in the first of the expressions in which something is.
#[cycle(culprit)]
pub(crate) fn first_culprit<A: Allocator + Copy>(
    alloc: A,
    types: &TypeTable<A>,
    expressions: &[Expr<A>],
) -> Result<Option<Culprit<A>>, Memory>
    ensures { Finds result (first_culprit (table_of types.now)
        (to_expressions (expressions_of expressions.now))) }
{
    for expression in expressions {
        let found = expression_culprit(alloc, types, expression)?;
        if found.is_some() {
            return Ok(found);
        }
    }
    Ok(None)
}

/// What is to blame in the fields of a constructor.
#[cycle(culprit)]
fn constructor_culprit<A: Allocator + Copy>(
    alloc: A,
    types: &TypeTable<A>,
    constructor: ConId,
    fields: &[Expr<A>],
) -> Result<Option<Culprit<A>>, Memory>
    ensures { Finds result (over_sets (constructor_sets (table_of types.now) constructor.0)
        (λ sets. given_culprit (table_of types.now) (owner_of (Owner.Constructor constructor)) 0
        (to_expressions (expressions_of fields.now)) sets)) }
{
    match constructor_sets(types, constructor) {
        Some(sets) => given_culprit(alloc, types, Owner::Constructor(constructor), fields, sets),
        None => Ok(Some(Culprit::Misfit)),
    }
}

/// What is to blame in given fields, each of which has a value in its set.
#[cycle(culprit)]
pub(crate) fn given_culprit<A: Allocator + Copy>(
    alloc: A,
    types: &TypeTable<A>,
    owner: Owner,
    fields: &[Expr<A>],
    sets: &[FieldSet<A>],
) -> Result<Option<Culprit<A>>, Memory>
    ensures { Finds result (given_culprit (table_of types.now) (owner_of owner) 0
        (to_expressions (expressions_of fields.now)) (sets_of sets.now)) }
{
    for (before, field) in fields.iter().enumerate() {
        let Some(set) = sets.get(before) else {
            return Ok(Some(Culprit::Misfit));
        };
        let inner = expression_culprit(alloc, types, field)?;
        let place = Place { owner, before, set };
        let found = place.or_outside(alloc, types, field, inner)?;
        if found.is_some() {
            return Ok(found);
        }
    }
    Ok(None)
}
