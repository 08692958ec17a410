//! The size and the depth of an expression.

ghost use Rattle.std.specs.Prelude.{◌≤◌, ◌-◌, ◌↔◌, IsTrue};
ghost use Rattle.std.specs.Option.{SomeIff};
ghost use Rattle.theory_syntax.specs.Expression.{to_expressions};
ghost use Rattle.theory_semantics.specs.Meaning.Limits.{expression_depth, expression_size, expressions_depth, expressions_size};
ghost use Rattle.csp_expression.specs.Expression.{expression_of, expressions_of};

use crate::expr::Expr;
use std::alloc::Allocator;

impl<A: Allocator> Expr<A> {
    /// What the expression leaves of the room for nodes, `None` where it has more of them.
    #[cycle(room)]
    pub fn room_left(&self, room: u32) -> Option<u32>
        ensures { SomeIff result (expression_size (expression_of self.now) ≤ room)
            (room - expression_size (expression_of self.now)) }
    {
        match self {
            Expr::Literal(value) => value.room_left(room),
            Expr::Apply(_, operand) => operand.room_left(room.checked_sub(1)?),
            Expr::Combine(_, left, right) | Expr::Range(left, right) => {
                right.room_left(left.room_left(room.checked_sub(1)?)?)
            }
            Expr::Sequence(items) => room_left_by(items, room.checked_sub(1)?),
            Expr::Set(members) => room_left_by(members, room.checked_sub(1)?),
            Expr::Constructor(_, fields) => room_left_by(fields, room.checked_sub(1)?),
            Expr::Name(_) | Expr::Booleans | Expr::Datatype(_) | Expr::Nametype(_) => {
                room.checked_sub(1)
            }
        }
    }

    /// Whether the expression is at most so deep.
    #[cycle(depth)]
    pub fn is_within_depth(&self, most: u32) -> bool
        ensures { IsTrue result ↔ (expression_depth (expression_of self.now) ≤ most) }
    {
        if most == 0 {
            return false;
        }
        match self {
            Expr::Literal(value) => value.is_within_depth(most),
            Expr::Apply(_, operand) => operand.is_within_depth(most - 1),
            Expr::Combine(_, left, right) | Expr::Range(left, right) => {
                left.is_within_depth(most - 1) && right.is_within_depth(most - 1)
            }
            Expr::Sequence(items) => are_within_depth(items, most - 1),
            Expr::Set(members) => are_within_depth(members, most - 1),
            Expr::Constructor(_, fields) => are_within_depth(fields, most - 1),
            Expr::Name(_) | Expr::Booleans | Expr::Datatype(_) | Expr::Nametype(_) => true,
        }
    }
}

/// What the expressions together leave of the room.
#[cycle(room)]
pub fn room_left_by<A: Allocator>(expressions: &[Expr<A>], room: u32) -> Option<u32>
    ensures { SomeIff result (expressions_size (to_expressions (expressions_of expressions.now))
        ≤ room) (room - expressions_size (to_expressions (expressions_of expressions.now))) }
{
    let mut rest = room;
    for expression in expressions {
        rest = expression.room_left(rest)?;
    }
    Some(rest)
}

/// Whether each of the expressions is at most so deep.
#[cycle(depth)]
pub fn are_within_depth<A: Allocator>(expressions: &[Expr<A>], most: u32) -> bool
    ensures { IsTrue result
        ↔ (expressions_depth (to_expressions (expressions_of expressions.now)) ≤ most) }
{
    for expression in expressions {
        if !expression.is_within_depth(most) {
            return false;
        }
    }
    true
}
