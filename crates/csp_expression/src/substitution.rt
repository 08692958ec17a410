//! Values put in for names.

ghost use Rattle.std.specs.Prelude.{◌≡◌, IfOk};
ghost use Rattle.theory_syntax.specs.Expression as pure;
ghost use Rattle.theory_syntax.specs.Operators.{binary_of, unary_of};
ghost use Rattle.theory_semantics.specs.Meaning.Substitution.{bound, put_expression};
ghost use Rattle.csp_expression.specs.Expression.{expression_of, expressions_of};
ghost use Rattle.csp_expression.specs.Bindings.{bindings_of, found_of, puts};

use crate::expr::Expr;
use crate::name::Name;
use csp_value::{Memory, Value};
use std::alloc::Allocator;
use theory_syntax::{BinaryOperator, UnaryOperator};

/// A name with the value that it stands for.
#[derive(Clone, Copy)]
pub struct Binding<'v, A: Allocator> {
    /// The bound name.
    pub name: Name,
    /// The value, where it lies.
    pub value: &'v Value<A>,
}

/// The value of the first binding of the name, if there is one.
pub(crate) fn bound<'v, A: Allocator>(
    name: Name,
    bindings: &[Binding<'v, A>],
) -> Option<&'v Value<A>>
    ensures { found_of result ≡ bound (bindings_of bindings.now) name.0 }
{
    for binding in bindings {
        if binding.name == name {
            return Some(binding.value);
        }
    }
    None
}

/// The name with its value put in, if it has one.
fn value_or_name<A: Allocator + Copy>(
    alloc: A,
    name: Name,
    bindings: &[Binding<'_, A>],
) -> Result<Expr<A>, Memory>
    ensures { IfOk result (λ put. expression_of put
        ≡ put_expression (bindings_of bindings.now) (pure.Name name.0)) }
{
    match bound(name, bindings) {
        Some(value) => Ok(Expr::Literal(value.try_copy(alloc)?)),
        None => Ok(Expr::Name(name)),
    }
}

/// The operator with the operand.
fn applied<A: Allocator + Copy>(
    alloc: A,
    operator: UnaryOperator,
    operand: Expr<A>,
) -> Result<Expr<A>, Memory>
    ensures { IfOk result (λ made. expression_of made
        ≡ pure.Apply (unary_of operator) (expression_of operand)) }
{
    Ok(Expr::Apply(operator, Box::new(alloc, operand)?))
}

/// The operator with the operands.
fn combined<A: Allocator + Copy>(
    alloc: A,
    operator: BinaryOperator,
    left: Expr<A>,
    right: Expr<A>,
) -> Result<Expr<A>, Memory>
    ensures { IfOk result (λ made. expression_of made
        ≡ pure.Combine (binary_of operator) (expression_of left) (expression_of right)) }
{
    let left = Box::new(alloc, left)?;
    let right = Box::new(alloc, right)?;
    Ok(Expr::Combine(operator, left, right))
}

/// The range between the two.
fn ranging<A: Allocator + Copy>(alloc: A, from: Expr<A>, to: Expr<A>) -> Result<Expr<A>, Memory>
    ensures { IfOk result (λ made. expression_of made
        ≡ pure.Range (expression_of from) (expression_of to)) }
{
    let from = Box::new(alloc, from)?;
    let to = Box::new(alloc, to)?;
    Ok(Expr::Range(from, to))
}

impl<A: Allocator + Copy> Expr<A> {
    /// The expression in the given allocator with each name of the list replaced by its value, of which the first
    /// counts where a name is there more than once. Nothing is evaluated. `Memory` where there is no room.
    #[cycle(put)]
    pub fn put_in(&self, alloc: A, bindings: &[Binding<'_, A>]) -> Result<Expr<A>, Memory>
        ensures { IfOk result (λ put. expression_of put
            ≡ put_expression (bindings_of bindings.now) (expression_of self.now)) }
    {
        match self {
            Expr::Literal(value) => Ok(Expr::Literal(value.try_copy(alloc)?)),
            Expr::Name(name) => value_or_name(alloc, *name, bindings),
            Expr::Apply(operator, operand) => {
                let operand = operand.put_in(alloc, bindings)?;
                applied(alloc, *operator, operand)
            }
            Expr::Combine(operator, left, right) => {
                let left = left.put_in(alloc, bindings)?;
                let right = right.put_in(alloc, bindings)?;
                combined(alloc, *operator, left, right)
            }
            Expr::Sequence(items) => Ok(Expr::Sequence(put_in_all(alloc, items, bindings)?)),
            Expr::Set(members) => Ok(Expr::Set(put_in_all(alloc, members, bindings)?)),
            Expr::Range(from, to) => {
                let from = from.put_in(alloc, bindings)?;
                let to = to.put_in(alloc, bindings)?;
                ranging(alloc, from, to)
            }
            Expr::Booleans => Ok(Expr::Booleans),
            Expr::Datatype(datatype) => Ok(Expr::Datatype(*datatype)),
            Expr::Nametype(nametype) => Ok(Expr::Nametype(*nametype)),
            Expr::Constructor(constructor, fields) => {
                let fields = put_in_all(alloc, fields, bindings)?;
                Ok(Expr::Constructor(*constructor, fields))
            }
        }
    }
}

/// Each expression with the values put in, in order, or `Memory` where there is no room.
#[cycle(put)]
pub fn put_in_all<A: Allocator + Copy>(
    alloc: A,
    expressions: &[Expr<A>],
    bindings: &[Binding<'_, A>],
) -> Result<Vec<Expr<A>, A>, Memory>
    ensures { IfOk result (λ all. expressions_of all.items
        ≡ puts (bindings_of bindings.now) expressions.now) }
{
    let mut all = Vec::new(alloc);
    for expression in expressions {
        all.push(expression.put_in(alloc, bindings)?)?;
    }
    Ok(all)
}
