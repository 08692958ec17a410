//! Whether values rise.

ghost use Rattle.std.specs.Prelude.{◌≡◌};
ghost use Rattle.theory_semantics.specs.Meaning.Offers.{rises};
ghost use Rattle.csp_value.specs.Value.{values_of};

use crate::laws::compare_values;
use crate::value::Value;
use std::alloc::Allocator;

/// Whether each value is less than the next one.
pub fn is_rising<A: Allocator>(values: &[Value<A>]) -> bool
    ensures { result ≡ rises (values_of values.now) }
{
    for place in 1..values.len() {
        if !compare_values(&values[place - 1], &values[place]).is_lt() {
            return false;
        }
    }
    true
}
