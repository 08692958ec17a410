//! Expressions and the names in them.

ghost use Rattle.theory_text.specs.Raw.{RawUse};
ghost use Rattle.csp_parse.specs.Expressions.{expression_of, expressions_of};
ghost use Rattle.csp_parse.specs.Names.{name_of};
ghost use Rattle.csp_names.specs.Walks.{ResolvesExpression, ResolvesExpressions};

use crate::bound_names::BoundNames;
use crate::refusals::{KindFault, Refused};
use crate::scope::Scope;
use crate::terms::{apply, combine, number_expression, range, truth_expression};
use csp_expression::Expr;
use csp_parse::{Expression as RawExpression, Name as RawName};
use std::alloc::Allocator;

impl<'n, 't, A: Allocator + Copy> Scope<'n, 't, A> {
    /// The expression that is written, or the first fault of a name in it.
    #[cycle(resolve_expression)]
    pub fn resolve_expression(
        &self,
        alloc: A,
        bound: &BoundNames<'t, A>,
        expression: &RawExpression<'t, A>,
    ) -> Result<Expr<A>, Refused>
        ensures { ResolvesExpression self.now bound.now (expression_of expression.now) result }
    {
        match expression {
            RawExpression::Number(number) => number_expression(*number),
            RawExpression::Truth(truth) => Ok(truth_expression(*truth)),
            RawExpression::Booleans => Ok(Expr::Booleans),
            RawExpression::Use(name) => self.resolve_use(alloc, bound, *name),
            RawExpression::Apply(operator, operand) => {
                let operand = self.resolve_expression(alloc, bound, operand)?;
                apply(alloc, *operator, operand)
            }
            RawExpression::Combine(operator, left, right) => {
                let left = self.resolve_expression(alloc, bound, left)?;
                let right = self.resolve_expression(alloc, bound, right)?;
                combine(alloc, *operator, left, right)
            }
            RawExpression::Sequence(items) => {
                let items = self.resolve_expressions(alloc, bound, items)?;
                Ok(Expr::Sequence(items))
            }
            RawExpression::Set(members) => {
                let members = self.resolve_expressions(alloc, bound, members)?;
                Ok(Expr::Set(members))
            }
            RawExpression::Range(from, to) => {
                let from = self.resolve_expression(alloc, bound, from)?;
                let to = self.resolve_expression(alloc, bound, to)?;
                range(alloc, from, to)
            }
            RawExpression::Constructor(name, fields) => {
                let constructor = self.resolve_constructor(bound, *name, fields.len())?;
                let fields = self.resolve_expressions(alloc, bound, fields)?;
                Ok(Expr::Constructor(constructor, fields))
            }
        }
    }

    /// The expressions that are written, or the first fault of a name in one of them.
    #[cycle(resolve_expression)]
    pub(crate) fn resolve_expressions(
        &self,
        alloc: A,
        bound: &BoundNames<'t, A>,
        expressions: &[RawExpression<'t, A>],
    ) -> Result<Vec<Expr<A>, A>, Refused>
        ensures { ResolvesExpressions self.now bound.now (expressions_of expressions.now) result }
    {
        let mut resolved = Vec::new(alloc);
        for expression in expressions {
            let one = self.resolve_expression(alloc, bound, expression)?;
            resolved.push(one)?;
        }
        Ok(resolved)
    }

    /// The expression that a name alone is: a bound name, a constructor, a datatype or a nametype.
    fn resolve_use(
        &self,
        alloc: A,
        bound: &BoundNames<'t, A>,
        name: RawName<'t>,
    ) -> Result<Expr<A>, Refused>
        ensures { ResolvesExpression self.now bound.now (RawUse (name_of name.entry)) result }
    {
        let Some(meaning) = self.meaning(bound, name) else {
            return Err(Refused::at(KindFault::UnknownName, name.place));
        };
        if self.lacks_fields(meaning) {
            return Err(Refused::at(KindFault::WrongCount, name.place));
        }
        match meaning.expression(alloc) {
            Some(expression) => Ok(expression),
            None => Err(Refused::at(KindFault::WrongKind, name.place)),
        }
    }
}
