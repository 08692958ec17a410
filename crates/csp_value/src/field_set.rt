//! The sets of values of the fields of a channel, or of a constructor.

ghost use Rattle.std.specs.Prelude.{◌≡◌, IfOk};
ghost use Rattle.theory_syntax.specs.Value.{has_value, sorted_values, to_values, values_list};
ghost use Rattle.csp_value.specs.Value.{IsRisingSet, members_of, rising_prop, value_of, values_of};

use crate::copy::TryCopy;
use crate::memory::Memory;
use crate::set::SetOf;
use crate::value::Value;
use std::alloc::Allocator;

/// The values that a field of a channel or of a constructor may have. That they rise is a fact of the type, so one is looked up by halving.
#[derive(Drop)]
#[derive_where(PartialEq, Eq, PartialOrd, Ord, Hash)]
pub struct FieldSet<A: Allocator> {
    values: SetOf<A>,
    ghost rising: { IsRisingSet values } by { rising_prop values },
}

impl<A: Allocator> FieldSet<A> {
    /// The set of the values, in whatever order and however often they are given. It moves them where they lie, so it
    /// needs no memory.
    pub fn from_values(values: Vec<Value<A>, A>) -> FieldSet<A>
        ensures { members_of result.values ≡ to_values (sorted_values (values_of values.items)) }
    {
        let values = SetOf::from_values(values);
        FieldSet { values }
    }

    /// The values, in order.
    pub fn members(&self) -> &[Value<A>]
        ensures { values_of result.now ≡ values_list (members_of self.now.values) }
    {
        self.values.members()
    }

    /// Whether the field may have the value. It takes as many comparisons as the number of values has binary digits.
    pub fn contains(&self, value: &Value<A>) -> bool
        ensures { result ≡ has_value (values_list (members_of self.now.values))
            (value_of value.now) }
    {
        self.values.contains_by_halving(value)
    }
}

impl<A: Allocator + Copy> TryCopy<A> for FieldSet<A> {
    ghost is_copy = { λ set copy. members_of copy.values ≡ members_of set.values };

    fn try_copy(&self, alloc: A) -> Result<FieldSet<A>, Memory> {
        let values = self.values.try_copy(alloc)?;
        Ok(FieldSet { values })
    }
}
