//! Expressions, as they are written.

use crate::names::Name;
use std::alloc::Allocator;
use theory_syntax::{BinaryOperator, UnaryOperator};

/// An expression as it is written. Brackets leave no mark.
#[derive(Drop)]
pub enum Expression<'a, A: Allocator> {
    /// A number, of at most 2,147,483,647.
    Number(u32),
    /// `true` or `false`
    Truth(bool),
    /// `Bool`
    Booleans,
    /// A name: a bound one, a constructor, a datatype or a nametype.
    Use(Name<'a>),
    /// An operator with its operand.
    Apply(UnaryOperator, Box<Expression<'a, A>, A>),
    /// An operator with its left and its right operand.
    Combine(BinaryOperator, Box<Expression<'a, A>, A>, Box<Expression<'a, A>, A>),
    /// `<e, ..>`
    Sequence(Vec<Expression<'a, A>, A>),
    /// `{e, ..}`
    Set(Vec<Expression<'a, A>, A>),
    /// `{e..f}`
    Range(Box<Expression<'a, A>, A>, Box<Expression<'a, A>, A>),
    /// `(C.e.f)`, a constructor with its fields, of which there is at least one.
    Constructor(Name<'a>, Vec<Expression<'a, A>, A>),
}
