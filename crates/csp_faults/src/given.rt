//! Values that are given for fields.

ghost use Rattle.std.specs.Prelude.{◌+◌, ◌<◌, ◌^◌};
ghost use Rattle.std.specs.Option.{option_or};
ghost use Rattle.theory_semantics.specs.Meaning.Evaluation.{value};
ghost use Rattle.theory_faults.specs.Expressions.{field_culprit, outside};
ghost use Rattle.csp_value.specs.Fields.{field_values};
ghost use Rattle.csp_expression.specs.Evaluation.{table_of};
ghost use Rattle.csp_expression.specs.Expression.{expression_of};
ghost use Rattle.csp_faults.specs.Culprit.{Finds, found_of, owner_of};

use crate::culprit::{Culprit, Owner};
use csp_expression::{Expr, NoValue, TypeTable};
use csp_value::{FieldSet, Memory};
use std::alloc::Allocator;

/// A field that is given a value.
#[derive(Clone, Copy)]
pub(crate) struct Place<'s, A: Allocator> {
    pub(crate) owner: Owner,
    pub(crate) before: usize,
    pub(crate) set: &'s FieldSet<A>,
}

impl<'s, A: Allocator + Copy> Place<'s, A> {
    /// What was found in the expression, and otherwise its value, if that lies outside of the field's set.
    pub(crate) fn or_outside(
        self,
        alloc: A,
        types: &TypeTable<A>,
        given: &Expr<A>,
        found: Option<Culprit<A>>,
    ) -> Result<Option<Culprit<A>>, Memory>
        requires { self.before + 1 < 2 ^ 64 }
        ensures { Finds result (option_or (found_of found)
            (outside (owner_of self.entry.owner) self.entry.before (field_values self.entry.set.now)
            (value (table_of types.now) (expression_of given.now)))) }
    {
        if found.is_some() {
            return Ok(found);
        }
        self.outside(alloc, types, given)
    }

    /// The value of the expression, if it lies outside of the field's set.
    fn outside(
        self,
        alloc: A,
        types: &TypeTable<A>,
        given: &Expr<A>,
    ) -> Result<Option<Culprit<A>>, Memory>
        requires { self.before + 1 < 2 ^ 64 }
        ensures { Finds result (outside (owner_of self.entry.owner) self.entry.before
            (field_values self.entry.set.now)
            (value (table_of types.now) (expression_of given.now))) }
    {
        match given.find_value(alloc, types) {
            Ok(value) => {
                if self.set.contains(&value) {
                    return Ok(None);
                }
                Ok(Some(Culprit::Outside(self.owner, self.before + 1, value)))
            }
            Err(NoValue::Cause(_)) => Ok(None),
            Err(NoValue::Memory) => Err(Memory),
        }
    }
}
