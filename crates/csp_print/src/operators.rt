//! How operators of expressions are written.

ghost use Rattle.std.specs.Prelude.{◌≡◌};
ghost use Rattle.theory_syntax.specs.Operators.{binary_of, unary_of};
ghost use Rattle.theory_notation.specs.Expressions as notation;

use csp_expression::{BinaryOperator, UnaryOperator};

/// What stands before the operand.
pub(crate) fn text_before_operand(operator: UnaryOperator) -> &'static str
    ensures { result.now ≡ notation.text_before_operand (unary_of operator) }
{
    match operator {
        UnaryOperator::Negate => "-",
        UnaryOperator::Not => "not ",
        UnaryOperator::Length => "#",
        UnaryOperator::Head => "head(",
        UnaryOperator::Tail => "tail(",
        UnaryOperator::IsNull => "null(",
        UnaryOperator::Card => "card(",
    }
}

/// What stands behind the operand.
pub(crate) fn text_behind_operand(operator: UnaryOperator) -> &'static str
    ensures { result.now ≡ notation.text_behind_operand (unary_of operator) }
{
    match operator {
        UnaryOperator::Negate | UnaryOperator::Not | UnaryOperator::Length => "",
        UnaryOperator::Head | UnaryOperator::Tail | UnaryOperator::IsNull | UnaryOperator::Card =>
            ")",
    }
}

/// Whether the operator is written as a function of two arguments.
pub(crate) fn is_function(operator: BinaryOperator) -> bool
    ensures { result ≡ notation.is_function (binary_of operator) }
{
    match operator {
        BinaryOperator::IsElement
        | BinaryOperator::IsMember
        | BinaryOperator::Union
        | BinaryOperator::Intersection
        | BinaryOperator::Difference => true,
        BinaryOperator::Add
        | BinaryOperator::Subtract
        | BinaryOperator::Multiply
        | BinaryOperator::Modulus
        | BinaryOperator::Concatenate
        | BinaryOperator::Equals
        | BinaryOperator::Differs
        | BinaryOperator::LessThan
        | BinaryOperator::AtMost
        | BinaryOperator::GreaterThan
        | BinaryOperator::AtLeast
        | BinaryOperator::And
        | BinaryOperator::Or => false,
    }
}

/// What stands before both operands.
pub(crate) fn text_before(operator: BinaryOperator) -> &'static str
    ensures { result.now ≡ notation.text_before (binary_of operator) }
{
    match operator {
        BinaryOperator::IsElement => "elem(",
        BinaryOperator::IsMember => "member(",
        BinaryOperator::Union => "union(",
        BinaryOperator::Intersection => "inter(",
        BinaryOperator::Difference => "diff(",
        BinaryOperator::Add
        | BinaryOperator::Subtract
        | BinaryOperator::Multiply
        | BinaryOperator::Modulus
        | BinaryOperator::Concatenate
        | BinaryOperator::Equals
        | BinaryOperator::Differs
        | BinaryOperator::LessThan
        | BinaryOperator::AtMost
        | BinaryOperator::GreaterThan
        | BinaryOperator::AtLeast
        | BinaryOperator::And
        | BinaryOperator::Or => "",
    }
}

/// What stands between the operands.
pub(crate) fn text_between(operator: BinaryOperator) -> &'static str
    ensures { result.now ≡ notation.text_between (binary_of operator) }
{
    match operator {
        BinaryOperator::Add => " + ",
        BinaryOperator::Subtract => " - ",
        BinaryOperator::Multiply => " * ",
        BinaryOperator::Modulus => " % ",
        BinaryOperator::Concatenate => " ^ ",
        BinaryOperator::Equals => " == ",
        BinaryOperator::Differs => " != ",
        BinaryOperator::LessThan => " < ",
        BinaryOperator::AtMost => " <= ",
        BinaryOperator::GreaterThan => " > ",
        BinaryOperator::AtLeast => " >= ",
        BinaryOperator::And => " and ",
        BinaryOperator::Or => " or ",
        BinaryOperator::IsElement
        | BinaryOperator::IsMember
        | BinaryOperator::Union
        | BinaryOperator::Intersection
        | BinaryOperator::Difference => ",",
    }
}

/// What stands behind both operands.
pub(crate) fn text_behind(operator: BinaryOperator) -> &'static str
    ensures { result.now ≡ notation.text_behind (binary_of operator) }
{
    match operator {
        BinaryOperator::IsElement
        | BinaryOperator::IsMember
        | BinaryOperator::Union
        | BinaryOperator::Intersection
        | BinaryOperator::Difference => ")",
        BinaryOperator::Add
        | BinaryOperator::Subtract
        | BinaryOperator::Multiply
        | BinaryOperator::Modulus
        | BinaryOperator::Concatenate
        | BinaryOperator::Equals
        | BinaryOperator::Differs
        | BinaryOperator::LessThan
        | BinaryOperator::AtMost
        | BinaryOperator::GreaterThan
        | BinaryOperator::AtLeast
        | BinaryOperator::And
        | BinaryOperator::Or => "",
    }
}
