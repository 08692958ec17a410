//! What the comparisons mean: two expressions are equal exactly where those that they stand for are, whichever
//! allocator holds them, their order is that of the definitions, and those that stand for the same have one hash.

ghost use Rattle.std.specs.Prelude.{◌≡◌, ◌↔◌, IsTrue};
ghost use Rattle.std.specs.List.{fold};
ghost use Rattle.theory_syntax.specs.Order.{expression_cmp};
ghost use Rattle.csp_expression.specs.Expression.{expression_of};

use crate::expr::Expr;
use std::alloc::Allocator;
use std::cmp::Ordering;
use std::hash::{Hash, Hasher};

/// Whether two expressions are the same.
pub fn equal_expressions<A: Allocator>(left: &Expr<A>, right: &Expr<A>) -> bool
    ensures { IsTrue result ↔ (expression_of left.now ≡ expression_of right.now) }
{
    left == right
}

/// The order of two expressions is that of what they stand for.
pub fn compare_expressions<A: Allocator>(left: &Expr<A>, right: &Expr<A>) -> Ordering
    ensures { result ≡ expression_cmp (expression_of left.now) (expression_of right.now) }
{
    left.cmp(right)
}

/// Feeds the expression to the hasher, which is then as any expression that stands for the same leaves it.
pub fn hash_expression<A: Allocator, H: Hasher>(expression: &Expr<A>, hasher: &mut H)
    ensures { (other : Expr A) → expression_of other ≡ expression_of expression.now
        → hasher.new ≡ fold H.write hasher.old (⟦<Expr<A> as Hash>⟧.hash_input other) }
{
    expression.hash(hasher);
}
