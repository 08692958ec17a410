//! Expressions.

ghost use Rattle.std.specs.Prelude.{◌≡◌, IfOk};
ghost use Rattle.csp_expression.specs.Expression.{expression_of};

use crate::name::{DatatypeId, Name, NametypeId};
use csp_value::{ConId, Memory, TryCopy, Value};
use std::alloc::Allocator;
use theory_syntax::{BinaryOperator, UnaryOperator};

/// An expression as it is written. The order is that of the forms, then of the parts in turn.
#[derive(Drop)]
#[derive_where(PartialEq, Eq, PartialOrd, Ord, Hash)]
pub enum Expr<A: Allocator> {
    /// A value: one that is written as such, or one that was put in for a name.
    Literal(Value<A>),
    /// A bound name.
    Name(Name),
    /// An operator with its operand.
    Apply(UnaryOperator, Box<Expr<A>, A>),
    /// An operator with its left and its right operand.
    Combine(BinaryOperator, Box<Expr<A>, A>, Box<Expr<A>, A>),
    /// `<e, ..>`, the sequence of the values.
    Sequence(Vec<Expr<A>, A>),
    /// `{e, ..}`, the set of the values.
    Set(Vec<Expr<A>, A>),
    /// `{e..f}`, the numbers from `e` to `f`, both with them.
    Range(Box<Expr<A>, A>, Box<Expr<A>, A>),
    /// `Bool`, the set of both truth values.
    Booleans,
    /// The set of a datatype's values.
    Datatype(DatatypeId),
    /// The set that a nametype names.
    Nametype(NametypeId),
    /// `(c.e.f)`, the constructor with the values of its fields. One without fields is a value as it is written.
    Constructor(ConId, Vec<Expr<A>, A>),
}

impl<A: Allocator + Copy> Expr<A> {
    /// An equal expression in the given allocator, or `Memory` where that has no room.
    #[tactic(auto, using(theory_semantics::proofs::Putting::put_nothing_in_expression))]
    pub fn try_copy(&self, alloc: A) -> Result<Expr<A>, Memory>
        ensures { IfOk result (λ copy. expression_of copy ≡ expression_of self.now) }
    {
        self.put_in(alloc, &[])
    }
}

impl<A: Allocator + Copy> TryCopy<A> for Expr<A> {
    ghost use Rattle.csp_expression.specs.Expression.{expression_of};

    ghost is_copy = { λ expression copy. expression_of copy ≡ expression_of expression };

    fn try_copy(&self, alloc: A) -> Result<Expr<A>, Memory> {
        Expr::try_copy(self, alloc)
    }
}
