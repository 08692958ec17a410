//! Which texts of expressions begin with `-`.

ghost use Rattle.std.specs.Prelude.{◌≡◌};
ghost use Rattle.theory_syntax.specs.Operators.{unary_of};
ghost use Rattle.csp_expression.specs.Expression.{expression_of};
ghost use Rattle.theory_notation.specs.Expressions as notation;

use crate::operators::is_function;
use crate::ranks::{ATOM, is_bare, left_rank};
use crate::values;
use csp_expression::{Expr, UnaryOperator};
use std::alloc::Allocator;

/// Whether the text of the expression begins with `-`.
pub(crate) fn begins_with_minus<A: Allocator>(expression: &Expr<A>) -> bool
    ensures { result ≡ notation.begins_with_minus (expression_of expression.now) }
{
    match expression {
        Expr::Literal(value) => values::begins_with_minus(value),
        Expr::Apply(operator, _) => is_negation(*operator),
        Expr::Combine(operator, left, _) => {
            !is_function(*operator)
                && is_bare(left_rank(*operator), left)
                && begins_with_minus(left)
        }
        Expr::Name(_)
        | Expr::Sequence(_)
        | Expr::Set(_)
        | Expr::Range(_, _)
        | Expr::Booleans
        | Expr::Datatype(_)
        | Expr::Nametype(_)
        | Expr::Constructor(_, _) => false,
    }
}

/// Whether the text of an operand begins with `-`, which stands without brackets where it has at least this rank.
pub(crate) fn operand_begins_with_minus<A: Allocator>(least: u32, operand: &Expr<A>) -> bool
    ensures { result ≡ notation.operand_begins_with_minus least (expression_of operand.now) }
{
    is_bare(least, operand) && begins_with_minus(operand)
}

/// Whether the operand has to be kept apart from the operator.
pub(crate) fn keeps_apart<A: Allocator>(operator: UnaryOperator, operand: &Expr<A>) -> bool
    ensures { result ≡ notation.keeps_apart (unary_of operator) (expression_of operand.now) }
{
    match operator {
        UnaryOperator::Negate => operand_begins_with_minus(ATOM, operand),
        UnaryOperator::Not
        | UnaryOperator::Length
        | UnaryOperator::Head
        | UnaryOperator::Tail
        | UnaryOperator::IsNull
        | UnaryOperator::Card => false,
    }
}

fn is_negation(operator: UnaryOperator) -> bool
    ensures { result ≡ notation.is_negation (unary_of operator) }
{
    match operator {
        UnaryOperator::Negate => true,
        UnaryOperator::Not
        | UnaryOperator::Length
        | UnaryOperator::Head
        | UnaryOperator::Tail
        | UnaryOperator::IsNull
        | UnaryOperator::Card => false,
    }
}
