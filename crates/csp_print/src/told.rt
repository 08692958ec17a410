//! Expressions as they are told: by their values, where the names have types.

ghost use Rattle.std.specs.Prelude.{◌≡◌, ◌≤◌, Ok};
ghost use Rattle.theory_syntax.specs.Expression.{to_expressions};
ghost use Rattle.theory_semantics.specs.Meaning.Evaluation.{value};
ghost use Rattle.csp_value.specs.Value.{value_of};
ghost use Rattle.csp_expression.specs.Evaluation.{table_of};
ghost use Rattle.csp_expression.specs.Expression.{expression_of, expressions_of};
ghost use Rattle.theory_notation.specs.Expressions.{expression_text, expressions_behind, operand_text};
ghost use Rattle.theory_notation.specs.Told as notation;
ghost use Rattle.theory_notation.specs.Told.{all_told, told, told_as};
ghost use Rattle.csp_print.specs.Names.{names_of};
ghost use Rattle.csp_print.specs.Writing.{Writes};

use crate::expressions::push_operand;
use crate::marks::push_mark;
use crate::names::Names;
use crate::ranks::DISJUNCTION;
use crate::values::push_value;
use csp_expression::{Expr, NoValue, TypeTable};
use csp_value::Value;
use std::alloc::{AllocError, Allocator};

/// The expression as it is told, in brackets where it has not this rank. A value is an atom.
pub(crate) fn push_told<A: Allocator + Copy>(
    names: &Names<'_, A>,
    least: u32,
    expression: &Expr<A>,
    text: &mut String<A>,
) -> Result<(), AllocError>
    requires { least ≤ 6 }
    ensures { Writes result text.old text.new
        (operand_text (names_of names.now) least
        (told (names_of names.now) (expression_of expression.now))) }
{
    match &names.types {
        Some(types) => push_evaluated(names, types, least, expression, text),
        None => push_operand(names, least, expression, text),
    }
}

/// The expression as it is told, where it may have any rank.
pub(crate) fn push_told_whole<A: Allocator + Copy>(
    names: &Names<'_, A>,
    expression: &Expr<A>,
    text: &mut String<A>,
) -> Result<(), AllocError>
    ensures { Writes result text.old text.new
        (expression_text (names_of names.now)
        (told (names_of names.now) (expression_of expression.now))) }
{
    push_told(names, DISJUNCTION, expression, text)
}

/// The expressions as they are told, of at least this rank, with the mark before each.
pub(crate) fn push_told_behind<A: Allocator + Copy>(
    names: &Names<'_, A>,
    mark: &str,
    least: u32,
    expressions: &[Expr<A>],
    text: &mut String<A>,
) -> Result<(), AllocError>
    requires { least ≤ 6 }
    ensures { Writes result text.old text.new
        (expressions_behind (names_of names.now) mark.now least
        (all_told (names_of names.now) (to_expressions (expressions_of expressions.now)))) }
{
    for expression in expressions {
        push_mark(mark, text)?;
        push_told(names, least, expression, text)?;
    }
    Ok(())
}

// By its value by these types, if it has one. The names have memory for it.
#[tactic(auto, using(theory_semantics::proofs::Putting::put_nothing_in_expression))]
fn push_evaluated<A: Allocator + Copy>(
    names: &Names<'_, A>,
    types: &TypeTable<A>,
    least: u32,
    expression: &Expr<A>,
    text: &mut String<A>,
) -> Result<(), AllocError>
    requires { least ≤ 6 }
    ensures { Writes result text.old text.new
        (operand_text (names_of names.now) least
        (told_as (expression_of expression.now)
        (value (table_of types.now) (expression_of expression.now)))) }
{
    let alloc = *names.channels.allocator();
    match expression.look(alloc, types, &[]) {
        Ok(seen) => push_seen(names, least, expression, seen.value(), text),
        Err(NoValue::Cause(_)) => push_operand(names, least, expression, text),
        Err(NoValue::Memory) => Err(AllocError),
    }
}

// By this value of it, unless that is a set.
fn push_seen<A: Allocator>(
    names: &Names<'_, A>,
    least: u32,
    expression: &Expr<A>,
    value: &Value<A>,
    text: &mut String<A>,
) -> Result<(), AllocError>
    requires { least ≤ 6 }
    ensures { Writes result text.old text.new
        (operand_text (names_of names.now) least
        (told_as (expression_of expression.now) (Ok (value_of value.now)))) }
{
    if is_set(value) {
        return push_operand(names, least, expression, text);
    }
    push_value(names, value, text)
}

fn is_set<A: Allocator>(value: &Value<A>) -> bool
    ensures { result ≡ notation.is_set (value_of value.now) }
{
    match value {
        Value::Set(_) => true,
        Value::Int(_) | Value::Bool(_) | Value::Con(_, _) | Value::Seq(_) => false,
    }
}
