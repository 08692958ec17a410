//! The kinds of operators' operands and values, where a kind that is left open has a number.

ghost use Rattle.std.specs.Prelude.{◌≡◌, [], IfOk};
ghost use Rattle.theory_checking.specs.Inference.Expressions.{behind_binary, behind_unary, binary_value, left_operand, operand, right_operand, unary_value};
ghost use Rattle.theory_syntax.specs.Operators.{binary_of, unary_of};
ghost use Rattle.csp_inference.specs.Chain.{demand_of};
ghost use Rattle.csp_inference.specs.Equations.{Adds};
ghost use Rattle.csp_inference.specs.Question.{AddsQuestion};
ghost use Rattle.csp_inference.specs.Questions.Operators.{binary_question, unary_question};

use crate::chain::{Demand, End, KindNumber};
use crate::equations::Equations;
use csp_expression::{BinaryOperator, UnaryOperator};
use csp_value::Memory;
use std::alloc::Allocator;

/// The kind of the operator's operand.
pub(crate) fn operand(operator: UnaryOperator, number: KindNumber) -> Demand
    ensures { demand_of result ≡ operand (unary_of operator) number.0 }
{
    let open = End::Open(number);
    match operator {
        UnaryOperator::Negate => Demand::Plain(End::Int),
        UnaryOperator::Not => Demand::Plain(End::Bool),
        UnaryOperator::Card => Demand::SetOf(open),
        UnaryOperator::Length | UnaryOperator::Head | UnaryOperator::Tail | UnaryOperator::IsNull =>
            Demand::SequenceOf(open),
    }
}

/// The kind of the operator's value.
fn unary_value(operator: UnaryOperator, number: KindNumber) -> Demand
    ensures { demand_of result ≡ unary_value (unary_of operator) number.0 }
{
    let open = End::Open(number);
    match operator {
        UnaryOperator::Negate | UnaryOperator::Length | UnaryOperator::Card => {
            Demand::Plain(End::Int)
        }
        UnaryOperator::Not | UnaryOperator::IsNull => Demand::Plain(End::Bool),
        UnaryOperator::Head => Demand::Plain(open),
        UnaryOperator::Tail => Demand::SequenceOf(open),
    }
}

/// The kind of the operator's left operand.
pub(crate) fn left_operand(operator: BinaryOperator, number: KindNumber) -> Demand
    ensures { demand_of result ≡ left_operand (binary_of operator) number.0 }
{
    let open = End::Open(number);
    match operator {
        BinaryOperator::Concatenate => Demand::SequenceOf(open),
        BinaryOperator::Equals
        | BinaryOperator::Differs
        | BinaryOperator::IsElement
        | BinaryOperator::IsMember => Demand::Plain(open),
        BinaryOperator::And | BinaryOperator::Or => Demand::Plain(End::Bool),
        BinaryOperator::Union | BinaryOperator::Intersection | BinaryOperator::Difference => {
            Demand::SetOf(open)
        }
        BinaryOperator::Add
        | BinaryOperator::Subtract
        | BinaryOperator::Multiply
        | BinaryOperator::Modulus
        | BinaryOperator::LessThan
        | BinaryOperator::AtMost
        | BinaryOperator::GreaterThan
        | BinaryOperator::AtLeast => Demand::Plain(End::Int),
    }
}

/// The kind of the operator's right operand.
pub(crate) fn right_operand(operator: BinaryOperator, number: KindNumber) -> Demand
    ensures { demand_of result ≡ right_operand (binary_of operator) number.0 }
{
    match operator {
        BinaryOperator::IsElement => Demand::SequenceOf(End::Open(number)),
        BinaryOperator::IsMember => Demand::SetOf(End::Open(number)),
        _ => left_operand(operator, number),
    }
}

/// The kind of the operator's value.
fn binary_value(operator: BinaryOperator, number: KindNumber) -> Demand
    ensures { demand_of result ≡ binary_value (binary_of operator) number.0 }
{
    let open = End::Open(number);
    match operator {
        BinaryOperator::Add
        | BinaryOperator::Subtract
        | BinaryOperator::Multiply
        | BinaryOperator::Modulus => Demand::Plain(End::Int),
        BinaryOperator::Concatenate => Demand::SequenceOf(open),
        BinaryOperator::Union | BinaryOperator::Intersection | BinaryOperator::Difference => {
            Demand::SetOf(open)
        }
        BinaryOperator::Equals
        | BinaryOperator::Differs
        | BinaryOperator::LessThan
        | BinaryOperator::AtMost
        | BinaryOperator::GreaterThan
        | BinaryOperator::AtLeast
        | BinaryOperator::And
        | BinaryOperator::Or
        | BinaryOperator::IsElement
        | BinaryOperator::IsMember => Demand::Plain(End::Bool),
    }
}

impl<A: Allocator + Copy> Equations<A> {
    /// Adds the equation for the operator's value, which is to have the kind, and gives the number of the kind that the
    /// operator leaves open, if it leaves one open. `Memory` where there is no room.
    pub(crate) fn push_unary(
        &mut self,
        operator: UnaryOperator,
        kind: Demand,
    ) -> Result<KindNumber, Memory>
        ensures number { IfOk result (λ n. n.0 ≡ self.old.next) }
        ensures behind { IfOk result (λ _. AddsQuestion self.old self.new
            (unary_question operator kind)) }
    {
        let number = self.unary_number(operator)?;
        self.push(unary_value(operator, number), kind)?;
        Ok(number)
    }

    /// The same for an operator of two operands.
    pub(crate) fn push_binary(
        &mut self,
        operator: BinaryOperator,
        kind: Demand,
    ) -> Result<KindNumber, Memory>
        ensures number { IfOk result (λ n. n.0 ≡ self.old.next) }
        ensures behind { IfOk result (λ _. AddsQuestion self.old self.new
            (binary_question operator kind)) }
    {
        let number = self.binary_number(operator)?;
        self.push(binary_value(operator, number), kind)?;
        Ok(number)
    }

    fn unary_number(&mut self, operator: UnaryOperator) -> Result<KindNumber, Memory>
        ensures number { IfOk result (λ n. n.0 ≡ self.old.next) }
        ensures behind { IfOk result (λ _. Adds self.old self.new []
            (behind_unary (unary_of operator) self.old.next)) }
    {
        match operator {
            UnaryOperator::Negate | UnaryOperator::Not => Ok(self.next_number()),
            UnaryOperator::Length
            | UnaryOperator::Head
            | UnaryOperator::Tail
            | UnaryOperator::IsNull
            | UnaryOperator::Card => self.fresh(),
        }
    }

    fn binary_number(&mut self, operator: BinaryOperator) -> Result<KindNumber, Memory>
        ensures number { IfOk result (λ n. n.0 ≡ self.old.next) }
        ensures behind { IfOk result (λ _. Adds self.old self.new []
            (behind_binary (binary_of operator) self.old.next)) }
    {
        match operator {
            BinaryOperator::Concatenate
            | BinaryOperator::Equals
            | BinaryOperator::Differs
            | BinaryOperator::IsElement
            | BinaryOperator::IsMember
            | BinaryOperator::Union
            | BinaryOperator::Intersection
            | BinaryOperator::Difference => self.fresh(),
            BinaryOperator::Add
            | BinaryOperator::Subtract
            | BinaryOperator::Multiply
            | BinaryOperator::Modulus
            | BinaryOperator::LessThan
            | BinaryOperator::AtMost
            | BinaryOperator::GreaterThan
            | BinaryOperator::AtLeast
            | BinaryOperator::And
            | BinaryOperator::Or => Ok(self.next_number()),
        }
    }
}
