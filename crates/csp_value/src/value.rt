//! Values of the language.

ghost use Rattle.std.specs.Prelude.{◌≡◌, IfOk};
ghost use Rattle.csp_value.specs.Value.{value_of, values_of};

use crate::copy::TryCopy;
use crate::memory::Memory;
use crate::name::ConId;
use crate::set::SetOf;
use std::alloc::Allocator;
use std::default::MadeWith;

/// A value is a finite tree. The order is that of the forms, then of the parts in turn.
#[cycle(value)]
#[derive(Drop)]
#[derive_where(PartialEq, Eq, PartialOrd, Ord, Hash)]
pub enum Value<A: Allocator> {
    /// A whole number of 32 bits, from -2147483648 to 2147483647.
    Int(i32),
    /// A truth value.
    Bool(bool),
    /// A constructor of a datatype, with the values of its fields.
    Con(ConId, Vec<Value<A>, A>),
    /// A sequence.
    Seq(Vec<Value<A>, A>),
    /// A set, whose members rise.
    Set(SetOf<A>),
}

impl<A: Allocator + Copy> Value<A> {
    /// An equal value in the given allocator, or `Memory` where that has no room.
    #[cycle(copy)]
    pub fn try_copy(&self, alloc: A) -> Result<Value<A>, Memory>
        ensures { IfOk result (λ copy. value_of copy ≡ value_of self.now) }
    {
        match self {
            Value::Int(number) => Ok(Value::Int(*number)),
            Value::Bool(truth) => Ok(Value::Bool(*truth)),
            Value::Con(constructor, fields) => {
                Ok(Value::Con(*constructor, copy_values(alloc, fields)?))
            }
            Value::Seq(items) => Ok(Value::Seq(copy_values(alloc, items)?)),
            Value::Set(set) => Ok(Value::Set(set.try_copy(alloc)?)),
        }
    }
}

impl<A: Allocator + Copy> TryCopy<A> for Value<A> {
    ghost use Rattle.csp_value.specs.Value.{value_of};

    ghost is_copy = { λ value copy. value_of copy ≡ value_of value };

    fn try_copy(&self, alloc: A) -> Result<Value<A>, Memory> {
        Value::try_copy(self, alloc)
    }
}

/// What stands in the places of a small vector that hold no value.
impl<A: Allocator + Drop> MadeWith<A> for Value<A> {
    fn made_with(_alloc: A) -> Value<A> {
        Value::Int(0)
    }
}

/// A copy of each value, in order, or `Memory` where there is no room.
#[cycle(copy)]
pub fn copy_values<A: Allocator + Copy>(
    alloc: A,
    values: &[Value<A>],
) -> Result<Vec<Value<A>, A>, Memory>
    ensures { IfOk result (λ copies. values_of copies.items ≡ values_of values.now) }
{
    let mut copies = Vec::new(alloc);
    for value in values {
        copies.push(value.try_copy(alloc)?)?;
    }
    Ok(copies)
}
