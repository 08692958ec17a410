//! Expressions at the front of bytes.

ghost use Rattle.theory_spelling.specs.Reading.{binary_tagged, expression_at, expression_behind, items_at, list_at, operation_at, two_at, unary_tagged, value_at};
ghost use Rattle.theory_syntax.specs.Expression.{Combine, Range};
ghost use Rattle.theory_syntax.specs.Operators.{binary_of, unary_of};
ghost use Rattle.csp_expression.specs.Expression.{expression_of, expressions_of};
ghost use Rattle.csp_spell.specs.Gives.{Gives};

use crate::fault::UnpackFault;
use crate::read_numbers::{read_byte, read_number};
use crate::read_values::read_value;
use crate::tags::{binary_tagged, unary_tagged};
use csp_expression::{BinaryOperator, DatatypeId, Expr, Name, NametypeId};
use csp_value::ConId;
use std::alloc::Allocator;

/// The expression at the front, and the bytes behind it. It nests at most so deep.
#[cycle(read_expression)]
#[tactic(auto, unfolding(theory_spelling::specs::Reading::expression_at))]
pub(crate) fn read_expression<A: Allocator + Copy>(
    alloc: A,
    depth: usize,
    bytes: &[u8],
) -> Result<(Expr<A>, &[u8]), UnpackFault>
    ensures { Gives (λ x. (expression_of x.0, x.1.now)) result (expression_at depth bytes.now) }
{
    if depth == 0 {
        return Err(UnpackFault::NotATerm);
    }
    let (tag, rest) = read_byte(bytes)?;
    read_tagged(alloc, depth - 1, tag, rest)
}

/// The expression behind its tag, and the bytes behind it. Its parts nest at most so deep.
#[cycle(read_expression)]
#[tactic(auto, unfolding(theory_spelling::specs::Reading::expression_behind, theory_spelling::specs::Reading::expressions_at))]
fn read_tagged<A: Allocator + Copy>(
    alloc: A,
    depth: usize,
    tag: u8,
    bytes: &[u8],
) -> Result<(Expr<A>, &[u8]), UnpackFault>
    ensures { Gives (λ x. (expression_of x.0, x.1.now)) result
        (expression_behind (value_at depth) (expression_at depth) tag bytes.now) }
{
    match tag {
        0x30 => {
            let (value, rest) = read_value(alloc, depth, bytes)?;
            Ok((Expr::Literal(value), rest))
        }
        0x31 => {
            let (name, rest) = read_number(bytes)?;
            Ok((Expr::Name(Name(name)), rest))
        }
        0x4b => {
            let (items, rest) = read_expressions(alloc, depth, bytes)?;
            Ok((Expr::Sequence(items), rest))
        }
        0x4c => {
            let (members, rest) = read_expressions(alloc, depth, bytes)?;
            Ok((Expr::Set(members), rest))
        }
        0x4d => read_range(alloc, depth, bytes),
        0x4e => Ok((Expr::Booleans, bytes)),
        0x4f => {
            let (datatype, rest) = read_number(bytes)?;
            Ok((Expr::Datatype(DatatypeId(datatype)), rest))
        }
        0x50 => {
            let (nametype, rest) = read_number(bytes)?;
            Ok((Expr::Nametype(NametypeId(nametype)), rest))
        }
        0x51 => {
            let (constructor, rest) = read_number(bytes)?;
            let (fields, rest) = read_expressions(alloc, depth, rest)?;
            Ok((Expr::Constructor(ConId(constructor), fields), rest))
        }
        _ => read_operation(alloc, depth, tag, bytes),
    }
}

/// The numbers from one to another, and the bytes behind them.
#[cycle(read_expression)]
#[tactic(auto, unfolding(theory_spelling::specs::Reading::two_at))]
fn read_range<A: Allocator + Copy>(
    alloc: A,
    depth: usize,
    bytes: &[u8],
) -> Result<(Expr<A>, &[u8]), UnpackFault>
    ensures { Gives (λ x. (expression_of x.0, x.1.now)) result
        (two_at (expression_at depth) Range bytes.now) }
{
    let (from, rest) = read_expression(alloc, depth, bytes)?;
    let (to, rest) = read_expression(alloc, depth, rest)?;
    let from = Box::new(alloc, from)?;
    let to = Box::new(alloc, to)?;
    Ok((Expr::Range(from, to), rest))
}

/// The operands of the operator of the tag, and the bytes behind them.
#[cycle(read_expression)]
fn read_operation<A: Allocator + Copy>(
    alloc: A,
    depth: usize,
    tag: u8,
    bytes: &[u8],
) -> Result<(Expr<A>, &[u8]), UnpackFault>
    ensures { Gives (λ x. (expression_of x.0, x.1.now)) result
        (operation_at (expression_at depth) (unary_tagged tag) (binary_tagged tag) bytes.now) }
{
    if let Some(operator) = unary_tagged(tag) {
        let (operand, rest) = read_expression(alloc, depth, bytes)?;
        let operand = Box::new(alloc, operand)?;
        return Ok((Expr::Apply(operator, operand), rest));
    }
    match binary_tagged(tag) {
        Some(operator) => read_operands(alloc, operator, depth, bytes),
        None => Err(UnpackFault::NotATerm),
    }
}

/// Both operands of the operator, and the bytes behind them.
#[cycle(read_expression)]
#[tactic(auto, unfolding(theory_spelling::specs::Reading::two_at))]
fn read_operands<A: Allocator + Copy>(
    alloc: A,
    operator: BinaryOperator,
    depth: usize,
    bytes: &[u8],
) -> Result<(Expr<A>, &[u8]), UnpackFault>
    ensures { Gives (λ x. (expression_of x.0, x.1.now)) result
        (two_at (expression_at depth) (Combine (binary_of operator)) bytes.now) }
{
    let (left, rest) = read_expression(alloc, depth, bytes)?;
    let (right, rest) = read_expression(alloc, depth, rest)?;
    let left = Box::new(alloc, left)?;
    let right = Box::new(alloc, right)?;
    Ok((Expr::Combine(operator, left, right), rest))
}

/// The list of expressions at the front, and the bytes behind it.
#[cycle(read_expression)]
#[tactic(auto, unfolding(theory_spelling::specs::Reading::list_at))]
pub(crate) fn read_expressions<A: Allocator + Copy>(
    alloc: A,
    depth: usize,
    bytes: &[u8],
) -> Result<(Vec<Expr<A>, A>, &[u8]), UnpackFault>
    ensures { Gives (λ x. (expressions_of x.0.items, x.1.now)) result
        (list_at (expression_at depth) bytes.now) }
{
    let (count, rest) = read_number(bytes)?;
    read_each_expression(alloc, depth, count, rest)
}

/// So many expressions at the front, and the bytes behind them. The list takes room as they are read.
#[cycle(read_expression)]
fn read_each_expression<A: Allocator + Copy>(
    alloc: A,
    depth: usize,
    count: u32,
    bytes: &[u8],
) -> Result<(Vec<Expr<A>, A>, &[u8]), UnpackFault>
    ensures { Gives (λ x. (expressions_of x.0.items, x.1.now)) result
        (items_at (expression_at depth) count bytes.now) }
{
    let mut expressions = Vec::new(alloc);
    let mut rest = bytes;
    for _ in 0..count {
        let (expression, after) = read_expression(alloc, depth, rest)?;
        expressions.push(expression)?;
        rest = after;
    }
    Ok((expressions, rest))
}
