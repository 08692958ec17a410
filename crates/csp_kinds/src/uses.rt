//! Whether what a set uses has members.

ghost use Rattle.std.specs.Prelude.{◌≡◌};
ghost use Rattle.std.specs.List.{list_all};
ghost use Rattle.theory_syntax.specs.Expression.{to_expressions};
ghost use Rattle.theory_syntax.specs.Value.{to_values};
ghost use Rattle.theory_checking.specs.Sets.{constructors_of, constructors_of_all};
ghost use Rattle.csp_expression.specs.Expression.{expression_of, expressions_of};
ghost use Rattle.csp_value.specs.Value.{value_of, values_of};
ghost use Rattle.csp_kinds.specs.Looking.{has_all, has_all_constructors, has_all_in, is_valued};

use crate::table::Table;
use csp_expression::{DatatypeId, Expr, NametypeId};
use csp_value::{ConId, Value};
use std::alloc::Allocator;

impl<A: Allocator + Copy> Table<A> {
    /// Whether each nametype that the expression uses has a value, and each constructor values for its fields, those of
    /// the datatypes that it uses among them.
    #[cycle(uses)]
    pub(crate) fn has_all(&self, expression: &Expr<A>) -> bool
        ensures { result ≡ has_all self.now (expression_of expression.now) }
    {
        match expression {
            Expr::Literal(value) => self.has_constructors_of(value),
            Expr::Apply(_, operand) => self.has_all(operand),
            Expr::Combine(_, left, right) => self.has_all(left) && self.has_all(right),
            Expr::Range(from, to) => self.has_all(from) && self.has_all(to),
            Expr::Sequence(items) => self.has_all_in(items),
            Expr::Set(members) => self.has_all_in(members),
            Expr::Nametype(nametype) => self.has_value(*nametype),
            Expr::Datatype(datatype) => self.has_all_constructors(*datatype),
            Expr::Constructor(constructor, fields) => {
                self.has_all_in(fields) && self.has_fields(*constructor)
            }
            Expr::Name(_) | Expr::Booleans => true,
        }
    }

    /// Whether it is so of each of the expressions.
    #[cycle(uses)]
    fn has_all_in(&self, expressions: &[Expr<A>]) -> bool
        ensures { result ≡ has_all_in self.now (to_expressions (expressions_of expressions.now)) }
    {
        for expression in expressions {
            if !self.has_all(expression) {
                return false;
            }
        }
        true
    }

    /// Whether each constructor of the value has values for its fields.
    #[cycle(constructors)]
    fn has_constructors_of(&self, value: &Value<A>) -> bool
        ensures { result ≡ list_all (is_valued self.now.filled.items)
            (constructors_of (value_of value.now)) }
    {
        match value {
            Value::Int(_) | Value::Bool(_) => true,
            Value::Con(constructor, fields) => {
                self.has_fields(*constructor) && self.has_constructors_of_all(fields)
            }
            Value::Seq(items) => self.has_constructors_of_all(items),
            Value::Set(set) => self.has_constructors_of_all(set.members()),
        }
    }

    /// Whether each constructor of each of the values does.
    #[cycle(constructors)]
    fn has_constructors_of_all(&self, values: &[Value<A>]) -> bool
        ensures { result ≡ list_all (is_valued self.now.filled.items)
            (constructors_of_all (to_values (values_of values.now))) }
    {
        for value in values {
            if !self.has_constructors_of(value) {
                return false;
            }
        }
        true
    }

    /// Whether the nametype has a value.
    fn has_value(&self, nametype: NametypeId) -> bool
        ensures { result ≡ is_valued self.now.valued.items nametype.0 }
    {
        is_valued(&self.valued, nametype.0 as usize)
    }

    /// Whether the constructor has values for its fields.
    fn has_fields(&self, constructor: ConId) -> bool
        ensures { result ≡ is_valued self.now.filled.items constructor.0 }
    {
        is_valued(&self.filled, constructor.0 as usize)
    }

    /// Whether each constructor of the datatype has values for its fields.
    fn has_all_constructors(&self, datatype: DatatypeId) -> bool
        ensures { result ≡ has_all_constructors self.now datatype.0 }
    {
        let Some(constructors) = self.types.datatypes.get(datatype.0 as usize) else {
            return true;
        };
        let first = constructors.first.0 as usize;
        let behind = first + constructors.following as usize + 1;
        for number in first..behind {
            if !is_valued(&self.filled, number) {
                return false;
            }
        }
        true
    }
}

/// What is said of this number, which is false behind the end.
fn is_valued(valued: &[bool], number: usize) -> bool
    ensures { result ≡ is_valued valued.now number }
{
    valued.get(number).copied().unwrap_or(false)
}
