//! The types that expressions name.

ghost use Rattle.std.specs.Prelude.{◌≡◌};

use csp_value::{ConId, FieldSet, Memory, SetOf, TryCopy, copy_all};
use std::alloc::Allocator;

/// The constructors of a datatype, which are numbered one after the other: the first one, and how many follow it.
#[derive(Clone, Copy, PartialEq, Eq, PartialOrd, Ord, Hash)]
pub struct Constructors {
    /// The first constructor.
    pub first: ConId,
    /// How many constructors follow the first one, from 0.
    pub following: u32,
}

/// The fields of a constructor.
#[derive(Drop)]
#[derive_where(PartialEq, Eq, PartialOrd, Ord, Hash)]
pub struct ConstructorFields<A: Allocator> {
    /// The set of each field, in order.
    pub sets: Vec<FieldSet<A>, A>,
}

/// The datatypes, the nametypes and the constructors of a script, each in the order of the text.
#[derive(Drop)]
#[derive_where(PartialEq, Eq, PartialOrd, Ord, Hash)]
pub struct TypeTable<A: Allocator> {
    /// The constructors of each datatype.
    pub datatypes: Vec<Constructors, A>,
    /// The set that each nametype names.
    pub nametypes: Vec<SetOf<A>, A>,
    /// The fields of each constructor.
    pub constructors: Vec<ConstructorFields<A>, A>,
}

impl<A: Allocator + Copy> TryCopy<A> for ConstructorFields<A> {
    ghost use Rattle.csp_value.specs.Fields.{sets_of};

    ghost is_copy = { λ fields copy. sets_of copy.sets.items ≡ sets_of fields.sets.items };

    fn try_copy(&self, alloc: A) -> Result<ConstructorFields<A>, Memory> {
        let sets = copy_all(alloc, self.sets.as_slice())?;
        Ok(ConstructorFields { sets })
    }
}

impl<A: Allocator + Copy> TryCopy<A> for TypeTable<A> {
    ghost use Rattle.csp_expression.specs.Evaluation.{table_of};

    ghost is_copy = { λ table copy. table_of copy ≡ table_of table };

    fn try_copy(&self, alloc: A) -> Result<TypeTable<A>, Memory> {
        Ok(TypeTable {
            datatypes: Vec::from_slice(alloc, self.datatypes.as_slice())?,
            nametypes: copy_all(alloc, self.nametypes.as_slice())?,
            constructors: copy_all(alloc, self.constructors.as_slice())?,
        })
    }
}
