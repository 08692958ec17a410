//! Fields of prefixes.

ghost use Rattle.std.specs.Prelude.{◌≡◌, IfOk};
ghost use Rattle.csp_term.specs.Field.{field_of};

use csp_expression::{Expr, Name};
use csp_value::{Memory, TryCopy};
use std::alloc::Allocator;

/// A field of a prefix. The order is that of the forms, then of the parts in turn.
#[derive(Drop)]
#[derive_where(PartialEq, Eq, PartialOrd, Ord, Hash)]
pub enum Field<A: Allocator> {
    /// `.e` or `!e`, a value that is given.
    Given(Expr<A>),
    /// `?x`, a value of the field's set, for which the name stands behind it.
    Input(Name),
    /// `?x:S`, the same with a value of the set `S`.
    InputFrom(Name, Expr<A>),
}

impl<A: Allocator + Copy> Field<A> {
    /// An equal field in the given allocator, or `Memory` where that has no room.
    pub fn try_copy(&self, alloc: A) -> Result<Field<A>, Memory>
        ensures { IfOk result (λ copy. field_of copy ≡ field_of self.now) }
    {
        match self {
            Field::Given(value) => Ok(Field::Given(value.try_copy(alloc)?)),
            Field::Input(name) => Ok(Field::Input(*name)),
            Field::InputFrom(name, set) => Ok(Field::InputFrom(*name, set.try_copy(alloc)?)),
        }
    }
}

impl<A: Allocator + Copy> TryCopy<A> for Field<A> {
    ghost use Rattle.csp_term.specs.Field.{field_of};

    ghost is_copy = { λ field copy. field_of copy ≡ field_of field };

    fn try_copy(&self, alloc: A) -> Result<Field<A>, Memory> {
        Field::try_copy(self, alloc)
    }
}
