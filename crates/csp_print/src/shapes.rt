//! What terms are at their heads, and where they stand without brackets.

ghost use Rattle.std.specs.Prelude.{◌≡◌};
ghost use Rattle.csp_term.specs.Term.{process_of};
ghost use Rattle.theory_notation.specs.Processes as notation;
ghost use Rattle.csp_print.specs.Shapes.{infix_of, operator_of, position_of, shape_of};

use csp_term::{ProcessOperator, Term, TermForm};
use std::alloc::Allocator;

/// An operator between processes that makes chains.
#[derive(Clone, Copy)]
pub(crate) enum Infix {
    /// One of a term of two processes.
    Operator(ProcessOperator),
    /// `[>`
    Sliding,
}

/// What a term is at its head.
#[derive(Clone, Copy)]
pub(crate) enum Shape {
    /// `STOP`, `SKIP`, a call, or a process that has ended.
    Base,
    /// A prefix or a guard.
    Prefixed,
    /// Two processes with an operator between.
    Chain(Infix),
    /// A renaming.
    Renamed,
    /// A hiding.
    Hidden,
    /// Anything else.
    Composed,
}

/// Where a term stands that is no whole one.
#[derive(Clone, Copy)]
pub(crate) enum Position {
    /// On the left of an operator.
    LeftOf(Infix),
    /// As another operand.
    Operand,
    /// In front of `[[`.
    BeforeRenaming,
    /// In front of `\`.
    BeforeHiding,
}

/// The shape of the term.
pub(crate) fn head_shape<A: Allocator>(term: &Term<A>) -> Shape
    ensures { shape_of result ≡ notation.shape (process_of term.now) }
{
    match term.form() {
        TermForm::Stop | TermForm::Skip | TermForm::Omega | TermForm::Call(_, _) => Shape::Base,
        TermForm::Prefix(_, _, _) | TermForm::Guard(_, _) => Shape::Prefixed,
        TermForm::Binary(operator, _, _) => Shape::Chain(Infix::Operator(*operator)),
        TermForm::SlidingChoice(_, _) => Shape::Chain(Infix::Sliding),
        TermForm::Renaming(_, _) => Shape::Renamed,
        TermForm::Hiding(_, _) => Shape::Hidden,
        TermForm::If(_, _, _)
        | TermForm::GeneralisedParallel(_, _, _)
        | TermForm::AlphabetisedParallel(_, _, _, _)
        | TermForm::Replicated(_, _, _, _) => Shape::Composed,
    }
}

/// Whether a term of the shape stands there without brackets.
pub(crate) fn stands_bare(position: Position, shape: Shape) -> bool
    ensures { result ≡ notation.stands_bare (position_of position) (shape_of shape) }
{
    match position {
        Position::LeftOf(operator) => goes_on_with(operator, shape),
        Position::Operand => matches!(shape, Shape::Base | Shape::Prefixed),
        Position::BeforeRenaming => matches!(shape, Shape::Base | Shape::Renamed),
        Position::BeforeHiding => { matches!(shape, Shape::Base | Shape::Renamed | Shape::Hidden) }
    }
}

// Whether a term of the shape stands on the left of the operator without brackets.
fn goes_on_with(operator: Infix, shape: Shape) -> bool
    ensures { result ≡ notation.stands_bare (notation.LeftOf (infix_of operator)) (shape_of shape) }
{
    match shape {
        Shape::Base | Shape::Prefixed => true,
        Shape::Chain(other) => is_same(operator, other),
        Shape::Renamed | Shape::Hidden | Shape::Composed => false,
    }
}

fn is_same(operator: Infix, other: Infix) -> bool
    ensures { result ≡ notation.is_same (infix_of operator) (infix_of other) }
{
    match (operator, other) {
        (Infix::Operator(operator), Infix::Operator(other)) => is_same_operator(operator, other),
        (Infix::Sliding, Infix::Sliding) => true,
        (Infix::Operator(_), Infix::Sliding) | (Infix::Sliding, Infix::Operator(_)) => false,
    }
}

fn is_same_operator(operator: ProcessOperator, other: ProcessOperator) -> bool
    ensures { result ≡ notation.is_same (operator_of operator) (operator_of other) }
{
    match operator {
        ProcessOperator::ExternalChoice => matches!(other, ProcessOperator::ExternalChoice),
        ProcessOperator::InternalChoice => matches!(other, ProcessOperator::InternalChoice),
        ProcessOperator::Sequential => matches!(other, ProcessOperator::Sequential),
        ProcessOperator::Interleaving => matches!(other, ProcessOperator::Interleaving),
        ProcessOperator::Interrupt => matches!(other, ProcessOperator::Interrupt),
    }
}

/// How the operator is written.
pub(crate) fn infix_text(operator: Infix) -> &'static str
    ensures { result.now ≡ notation.infix_text (infix_of operator) }
{
    match operator {
        Infix::Operator(ProcessOperator::ExternalChoice) => " [] ",
        Infix::Operator(ProcessOperator::InternalChoice) => " |~| ",
        Infix::Operator(ProcessOperator::Sequential) => " ; ",
        Infix::Operator(ProcessOperator::Interleaving) => " ||| ",
        Infix::Operator(ProcessOperator::Interrupt) => " /\\ ",
        Infix::Sliding => " [> ",
    }
}
