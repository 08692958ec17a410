//! Expressions at the end of bytes.

ghost use Rattle.std.specs.Prelude.{◌≡◌, ◌++◌, OnOk};
ghost use Rattle.theory_spelling.specs.Spelling.{expression_spelling, list_spelling};
ghost use Rattle.theory_spelling.specs.Packable.{IsPackableExpression, IsPackableList};
ghost use Rattle.theory_spelling.specs.Ranges.{IsInRangeExpression};
ghost use Rattle.std.specs.List.{AllByRecursion};
ghost use Rattle.csp_expression.specs.Expression.{expression_of, expressions_of};

use crate::numbers::{push_length, push_number, push_tagged};
use crate::tags::{binary_tag, unary_tag};
use crate::values::push_value;
use csp_expression::Expr;
use csp_value::Memory;
use std::alloc::Allocator;

/// Puts the spelling of the expression at the end.
#[cycle(push_expression)]
pub(crate) fn push_expression<A: Allocator>(
    expression: &Expr<A>,
    bytes: &mut Vec<u8, A>,
) -> Result<(), Memory>
    requires { IsPackableExpression (expression_of expression.now) }
    ensures spelled { OnOk result (bytes.new.items ≡ bytes.old.items
        ++ expression_spelling (expression_of expression.now)) }
    ensures range { OnOk result (IsInRangeExpression (expression_of expression.now)) }
{
    match expression {
        Expr::Literal(value) => {
            bytes.push(0x30)?;
            push_value(value, bytes)
        }
        Expr::Name(name) => push_tagged(0x31, name.0, bytes),
        Expr::Apply(operator, operand) => {
            bytes.push(unary_tag(*operator))?;
            push_expression(operand, bytes)
        }
        Expr::Combine(operator, left, right) => {
            bytes.push(binary_tag(*operator))?;
            push_expression(left, bytes)?;
            push_expression(right, bytes)
        }
        Expr::Sequence(items) => {
            bytes.push(0x4b)?;
            push_expressions(items, bytes)
        }
        Expr::Set(members) => {
            bytes.push(0x4c)?;
            push_expressions(members, bytes)
        }
        Expr::Range(from, to) => {
            bytes.push(0x4d)?;
            push_expression(from, bytes)?;
            push_expression(to, bytes)
        }
        Expr::Booleans => Ok(bytes.push(0x4e)?),
        Expr::Datatype(datatype) => push_tagged(0x4f, datatype.0, bytes),
        Expr::Nametype(nametype) => push_tagged(0x50, nametype.0, bytes),
        Expr::Constructor(constructor, fields) => {
            bytes.push(0x51)?;
            push_number(constructor.0, bytes)?;
            push_expressions(fields, bytes)
        }
    }
}

/// Puts the length of the list and the spellings of its expressions at the end.
#[cycle(push_expression)]
pub(crate) fn push_expressions<A: Allocator>(
    expressions: &[Expr<A>],
    bytes: &mut Vec<u8, A>,
) -> Result<(), Memory>
    requires { IsPackableList IsPackableExpression (expressions_of expressions.now) }
    ensures spelled { OnOk result (bytes.new.items ≡ bytes.old.items
        ++ list_spelling expression_spelling (expressions_of expressions.now)) }
    ensures range { OnOk result (AllByRecursion IsInRangeExpression
        (expressions_of expressions.now)) }
{
    push_length(expressions.len(), bytes)?;
    for expression in expressions {
        push_expression(expression, bytes)?;
    }
    Ok(())
}
