//! The text of expressions.

ghost use Rattle.std.specs.Prelude.{codes};
ghost use Rattle.theory_syntax.specs.Expression.{Apply, Combine, ConstructorOf, Range, SequenceOf, SetOf, to_expressions};
ghost use Rattle.theory_syntax.specs.Operators.{binary_of, unary_of};
ghost use Rattle.csp_expression.specs.Expression.{expression_of, expressions_of};
ghost use Rattle.theory_notation.specs.Expressions.{expression_text, expressions_behind, items_text, operand_text};
ghost use Rattle.csp_print.specs.Names.{names_of};
ghost use Rattle.csp_print.specs.Writing.{Writes};

use crate::marks::{push_gap, push_mark};
use crate::minus::{begins_with_minus, keeps_apart, operand_begins_with_minus};
use crate::names::Names;
use crate::operators::{
    text_before, text_before_operand, text_behind, text_behind_operand, text_between,
};
use crate::ranks::{ATOM, DISJUNCTION, SUM, is_bare, left_rank, operand_rank, right_rank};
use crate::values::push_value;
use csp_expression::{BinaryOperator, Expr, UnaryOperator};
use csp_value::ConId;
use std::alloc::{AllocError, Allocator};

/// Puts the text of the expression behind the string. It is an error where memory is refused.
#[cycle(expression)]
pub fn push_expression<A: Allocator>(
    names: &Names<'_, A>,
    expression: &Expr<A>,
    text: &mut String<A>,
) -> Result<(), AllocError>
    ensures { Writes result text.old text.new
        (expression_text (names_of names.now) (expression_of expression.now)) }
{
    match expression {
        Expr::Literal(value) => push_value(names, value, text),
        Expr::Name(name) => names.push_bound(*name, text),
        Expr::Apply(operator, operand) => push_applied(names, *operator, operand, text),
        Expr::Combine(operator, left, right) => push_combined(names, *operator, left, right, text),
        Expr::Sequence(items) => push_sequence(names, items.as_slice(), text),
        Expr::Set(members) => push_set(names, members.as_slice(), text),
        Expr::Range(from, to) => push_range(names, from, to, text),
        Expr::Booleans => push_mark("Bool", text),
        Expr::Datatype(datatype) => names.push_datatype(*datatype, text),
        Expr::Nametype(nametype) => names.push_nametype(*nametype, text),
        Expr::Constructor(constructor, fields) => {
            push_constructor(names, *constructor, fields.as_slice(), text)
        }
    }
}

/// The expression, in brackets where it has not this rank.
#[cycle(expression)]
pub(crate) fn push_operand<A: Allocator>(
    names: &Names<'_, A>,
    least: u32,
    operand: &Expr<A>,
    text: &mut String<A>,
) -> Result<(), AllocError>
    ensures { Writes result text.old text.new
        (operand_text (names_of names.now) least (expression_of operand.now)) }
{
    if is_bare(least, operand) {
        return push_expression(names, operand, text);
    }
    push_mark("(", text)?;
    push_expression(names, operand, text)?;
    push_mark(")", text)
}

#[cycle(expression)]
fn push_applied<A: Allocator>(
    names: &Names<'_, A>,
    operator: UnaryOperator,
    operand: &Expr<A>,
    text: &mut String<A>,
) -> Result<(), AllocError>
    ensures { Writes result text.old text.new
        (expression_text (names_of names.now)
        (Apply (unary_of operator) (expression_of operand.now))) }
{
    push_mark(text_before_operand(operator), text)?;
    push_gap(keeps_apart(operator, operand), text)?;
    push_operand(names, operand_rank(operator), operand, text)?;
    push_mark(text_behind_operand(operator), text)
}

#[cycle(expression)]
fn push_combined<A: Allocator>(
    names: &Names<'_, A>,
    operator: BinaryOperator,
    left: &Expr<A>,
    right: &Expr<A>,
    text: &mut String<A>,
) -> Result<(), AllocError>
    ensures { Writes result text.old text.new
        (expression_text (names_of names.now)
        (Combine (binary_of operator) (expression_of left.now) (expression_of right.now))) }
{
    push_mark(text_before(operator), text)?;
    push_operand(names, left_rank(operator), left, text)?;
    push_mark(text_between(operator), text)?;
    push_operand(names, right_rank(operator), right, text)?;
    push_mark(text_behind(operator), text)
}

// An item has at least the rank of a sum, since `>` ends the sequence.
#[cycle(expression)]
fn push_sequence<A: Allocator>(
    names: &Names<'_, A>,
    items: &[Expr<A>],
    text: &mut String<A>,
) -> Result<(), AllocError>
    ensures { Writes result text.old text.new
        (expression_text (names_of names.now)
        (SequenceOf (to_expressions (expressions_of items.now)))) }
{
    push_mark("<", text)?;
    push_items(names, SUM, items, text)?;
    push_mark(">", text)
}

#[cycle(expression)]
fn push_set<A: Allocator>(
    names: &Names<'_, A>,
    members: &[Expr<A>],
    text: &mut String<A>,
) -> Result<(), AllocError>
    ensures { Writes result text.old text.new
        (expression_text (names_of names.now)
        (SetOf (to_expressions (expressions_of members.now)))) }
{
    push_mark("{", text)?;
    push_items(names, DISJUNCTION, members, text)?;
    push_mark("}", text)
}

#[cycle(expression)]
fn push_range<A: Allocator>(
    names: &Names<'_, A>,
    from: &Expr<A>,
    to: &Expr<A>,
    text: &mut String<A>,
) -> Result<(), AllocError>
    ensures { Writes result text.old text.new
        (expression_text (names_of names.now)
        (Range (expression_of from.now) (expression_of to.now))) }
{
    push_mark("{", text)?;
    push_gap(begins_with_minus(from), text)?;
    push_expression(names, from, text)?;
    push_mark("..", text)?;
    push_expression(names, to, text)?;
    push_mark("}", text)
}

// A constructor with fields stands in `(` and `)`, with each field behind a `.`.
#[cycle(expression)]
fn push_constructor<A: Allocator>(
    names: &Names<'_, A>,
    constructor: ConId,
    fields: &[Expr<A>],
    text: &mut String<A>,
) -> Result<(), AllocError>
    ensures { Writes result text.old text.new
        (expression_text (names_of names.now)
        (ConstructorOf constructor.0 (to_expressions (expressions_of fields.now)))) }
{
    if fields.is_empty() {
        return names.push_constructor(constructor, text);
    }
    push_mark("(", text)?;
    names.push_constructor(constructor, text)?;
    push_expressions_behind(names, ".", ATOM, fields, text)?;
    push_mark(")", text)
}

// Expressions of at least this rank with `,` between, behind `<` or `{`.
#[cycle(expression)]
fn push_items<A: Allocator>(
    names: &Names<'_, A>,
    least: u32,
    items: &[Expr<A>],
    text: &mut String<A>,
) -> Result<(), AllocError>
    ensures { Writes result text.old text.new
        (items_text (names_of names.now) least (to_expressions (expressions_of items.now))) }
{
    match items.split_first() {
        Some((first, others)) => {
            push_gap(operand_begins_with_minus(least, first), text)?;
            push_operand(names, least, first, text)?;
            push_expressions_behind(names, ",", least, others, text)
        }
        None => Ok(()),
    }
}

// The expressions, of at least this rank, with the mark before each.
#[cycle(expression)]
fn push_expressions_behind<A: Allocator>(
    names: &Names<'_, A>,
    mark: &str,
    least: u32,
    expressions: &[Expr<A>],
    text: &mut String<A>,
) -> Result<(), AllocError>
    ensures { Writes result text.old text.new
        (expressions_behind (names_of names.now) mark.now least
        (to_expressions (expressions_of expressions.now))) }
{
    for expression in expressions {
        push_mark(mark, text)?;
        push_operand(names, least, expression, text)?;
    }
    Ok(())
}
