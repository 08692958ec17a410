//! How strongly expressions hold together.

ghost use Rattle.std.specs.Prelude.{◌≡◌, nat_le};
ghost use Rattle.theory_syntax.specs.Operators.{binary_of, unary_of};
ghost use Rattle.csp_expression.specs.Expression.{expression_of};
ghost use Rattle.theory_notation.specs.Expressions as notation;

use csp_expression::{BinaryOperator, Expr, UnaryOperator};
use std::alloc::Allocator;

/// The rank of `or`, the weakest.
pub(crate) const DISJUNCTION: u32 = 0;
/// The rank of `and`.
pub(crate) const CONJUNCTION: u32 = 1;
/// The rank of `not`.
pub(crate) const NEGATION: u32 = 2;
/// The rank of a comparison.
pub(crate) const COMPARISON: u32 = 3;
/// The rank of `+`, `-` and `^`.
pub(crate) const SUM: u32 = 4;
/// The rank of `*` and `%`.
pub(crate) const PRODUCT: u32 = 5;
/// The rank of an atom, the strongest.
pub(crate) const ATOM: u32 = 6;

/// Whether an operand stands without brackets where at least this rank is needed.
pub(crate) fn is_bare<A: Allocator>(least: u32, operand: &Expr<A>) -> bool
    ensures { result ≡ nat_le least (notation.rank (expression_of operand.now)) }
{
    least <= rank(operand)
}

/// The rank of an expression.
fn rank<A: Allocator>(expression: &Expr<A>) -> u32
    ensures { result ≡ notation.rank (expression_of expression.now) }
{
    match expression {
        Expr::Apply(operator, _) => unary_rank(*operator),
        Expr::Combine(operator, _, _) => binary_rank(*operator),
        Expr::Literal(_)
        | Expr::Name(_)
        | Expr::Sequence(_)
        | Expr::Set(_)
        | Expr::Range(_, _)
        | Expr::Booleans
        | Expr::Datatype(_)
        | Expr::Nametype(_)
        | Expr::Constructor(_, _) => ATOM,
    }
}

fn unary_rank(operator: UnaryOperator) -> u32
    ensures { result ≡ notation.unary_rank (unary_of operator) }
{
    match operator {
        UnaryOperator::Not => NEGATION,
        UnaryOperator::Negate
        | UnaryOperator::Length
        | UnaryOperator::Head
        | UnaryOperator::Tail
        | UnaryOperator::IsNull
        | UnaryOperator::Card => ATOM,
    }
}

fn binary_rank(operator: BinaryOperator) -> u32
    ensures { result ≡ notation.binary_rank (binary_of operator) }
{
    match operator {
        BinaryOperator::Or => DISJUNCTION,
        BinaryOperator::And => CONJUNCTION,
        BinaryOperator::Equals
        | BinaryOperator::Differs
        | BinaryOperator::LessThan
        | BinaryOperator::AtMost
        | BinaryOperator::GreaterThan
        | BinaryOperator::AtLeast => COMPARISON,
        BinaryOperator::Add | BinaryOperator::Subtract | BinaryOperator::Concatenate => SUM,
        BinaryOperator::Multiply | BinaryOperator::Modulus => PRODUCT,
        BinaryOperator::IsElement
        | BinaryOperator::IsMember
        | BinaryOperator::Union
        | BinaryOperator::Intersection
        | BinaryOperator::Difference => ATOM,
    }
}

/// The least rank of an operand without brackets.
pub(crate) fn operand_rank(operator: UnaryOperator) -> u32
    ensures { result ≡ notation.operand_rank (unary_of operator) }
{
    match operator {
        UnaryOperator::Negate | UnaryOperator::Length => ATOM,
        UnaryOperator::Not => NEGATION,
        UnaryOperator::Head | UnaryOperator::Tail | UnaryOperator::IsNull | UnaryOperator::Card =>
            DISJUNCTION,
    }
}

/// The least rank of a left operand without brackets.
pub(crate) fn left_rank(operator: BinaryOperator) -> u32
    ensures { result ≡ notation.left_rank (binary_of operator) }
{
    match operator {
        BinaryOperator::And => CONJUNCTION,
        BinaryOperator::Equals
        | BinaryOperator::Differs
        | BinaryOperator::LessThan
        | BinaryOperator::AtMost
        | BinaryOperator::GreaterThan
        | BinaryOperator::AtLeast
        | BinaryOperator::Add
        | BinaryOperator::Subtract
        | BinaryOperator::Concatenate => SUM,
        BinaryOperator::Multiply | BinaryOperator::Modulus => PRODUCT,
        BinaryOperator::Or
        | BinaryOperator::IsElement
        | BinaryOperator::IsMember
        | BinaryOperator::Union
        | BinaryOperator::Intersection
        | BinaryOperator::Difference => DISJUNCTION,
    }
}

/// The least rank of a right operand without brackets.
pub(crate) fn right_rank(operator: BinaryOperator) -> u32
    ensures { result ≡ notation.right_rank (binary_of operator) }
{
    match operator {
        BinaryOperator::Or => CONJUNCTION,
        BinaryOperator::And => NEGATION,
        BinaryOperator::Equals
        | BinaryOperator::Differs
        | BinaryOperator::LessThan
        | BinaryOperator::AtMost
        | BinaryOperator::GreaterThan
        | BinaryOperator::AtLeast => SUM,
        BinaryOperator::Add | BinaryOperator::Subtract | BinaryOperator::Concatenate => PRODUCT,
        BinaryOperator::Multiply | BinaryOperator::Modulus => ATOM,
        BinaryOperator::IsElement
        | BinaryOperator::IsMember
        | BinaryOperator::Union
        | BinaryOperator::Intersection
        | BinaryOperator::Difference => DISJUNCTION,
    }
}
