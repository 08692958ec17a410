//! The tags of operators.

ghost use Rattle.std.specs.Prelude.{◌≡◌};
ghost use Rattle.std.specs.Option.{option_map};
ghost use Rattle.theory_spelling.specs.Spelling.{binary_tag, unary_tag};
ghost use Rattle.theory_spelling.specs.Reading.{binary_tagged, unary_tagged};
ghost use Rattle.theory_syntax.specs.Operators.{binary_of, unary_of};
ghost use Rattle.csp_spell.specs.Tags.{process_tag, replicated_tag};

use csp_expression::{BinaryOperator, UnaryOperator};
use csp_term::{ProcessOperator, ReplicatedOperator};

/// The tag of an operator of one operand.
pub(crate) fn unary_tag(operator: UnaryOperator) -> u8
    ensures { result ≡ unary_tag (unary_of operator) }
{
    match operator {
        UnaryOperator::Negate => 0x32,
        UnaryOperator::Not => 0x33,
        UnaryOperator::Length => 0x34,
        UnaryOperator::Head => 0x35,
        UnaryOperator::Tail => 0x36,
        UnaryOperator::IsNull => 0x37,
        UnaryOperator::Card => 0x38,
    }
}

/// The tag of an operator of two operands.
pub(crate) fn binary_tag(operator: BinaryOperator) -> u8
    ensures { result ≡ binary_tag (binary_of operator) }
{
    match operator {
        BinaryOperator::Add => 0x39,
        BinaryOperator::Subtract => 0x3a,
        BinaryOperator::Multiply => 0x3b,
        BinaryOperator::Modulus => 0x3c,
        BinaryOperator::Concatenate => 0x3d,
        BinaryOperator::Equals => 0x3e,
        BinaryOperator::Differs => 0x3f,
        BinaryOperator::LessThan => 0x40,
        BinaryOperator::AtMost => 0x41,
        BinaryOperator::GreaterThan => 0x42,
        BinaryOperator::AtLeast => 0x43,
        BinaryOperator::And => 0x44,
        BinaryOperator::Or => 0x45,
        BinaryOperator::IsElement => 0x46,
        BinaryOperator::IsMember => 0x47,
        BinaryOperator::Union => 0x48,
        BinaryOperator::Intersection => 0x49,
        BinaryOperator::Difference => 0x4a,
    }
}

/// The operator of one operand that has the tag.
#[tactic(auto, unfolding(theory_spelling::specs::Reading::unary_tagged))]
pub(crate) fn unary_tagged(tag: u8) -> Option<UnaryOperator>
    ensures { option_map unary_of result ≡ unary_tagged tag }
{
    match tag {
        0x32 => Some(UnaryOperator::Negate),
        0x33 => Some(UnaryOperator::Not),
        0x34 => Some(UnaryOperator::Length),
        0x35 => Some(UnaryOperator::Head),
        0x36 => Some(UnaryOperator::Tail),
        0x37 => Some(UnaryOperator::IsNull),
        0x38 => Some(UnaryOperator::Card),
        _ => None,
    }
}

/// The operator of two operands that has the tag.
#[tactic(auto, unfolding(theory_spelling::specs::Reading::binary_tagged))]
pub(crate) fn binary_tagged(tag: u8) -> Option<BinaryOperator>
    ensures { option_map binary_of result ≡ binary_tagged tag }
{
    match tag {
        0x39 => Some(BinaryOperator::Add),
        0x3a => Some(BinaryOperator::Subtract),
        0x3b => Some(BinaryOperator::Multiply),
        0x3c => Some(BinaryOperator::Modulus),
        0x3d => Some(BinaryOperator::Concatenate),
        0x3e => Some(BinaryOperator::Equals),
        0x3f => Some(BinaryOperator::Differs),
        0x40 => Some(BinaryOperator::LessThan),
        0x41 => Some(BinaryOperator::AtMost),
        0x42 => Some(BinaryOperator::GreaterThan),
        0x43 => Some(BinaryOperator::AtLeast),
        0x44 => Some(BinaryOperator::And),
        0x45 => Some(BinaryOperator::Or),
        0x46 => Some(BinaryOperator::IsElement),
        0x47 => Some(BinaryOperator::IsMember),
        0x48 => Some(BinaryOperator::Union),
        0x49 => Some(BinaryOperator::Intersection),
        0x4a => Some(BinaryOperator::Difference),
        _ => None,
    }
}

/// The tag of an operator of two processes.
pub(crate) fn process_tag(operator: ProcessOperator) -> u8
    ensures { result ≡ process_tag operator }
{
    match operator {
        ProcessOperator::ExternalChoice => 0x08,
        ProcessOperator::InternalChoice => 0x09,
        ProcessOperator::Sequential => 0x0a,
        ProcessOperator::Interleaving => 0x0b,
        ProcessOperator::Interrupt => 0x0c,
    }
}

/// The tag of an operator of a process for each value of a set.
pub(crate) fn replicated_tag(operator: ReplicatedOperator) -> u8
    ensures { result ≡ replicated_tag operator }
{
    match operator {
        ReplicatedOperator::ExternalChoice => 0x11,
        ReplicatedOperator::InternalChoice => 0x12,
        ReplicatedOperator::Interleaving => 0x13,
    }
}
