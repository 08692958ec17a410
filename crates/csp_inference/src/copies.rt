//! Copies of a value.

ghost use Rattle.std.specs.Prelude.{◌≡◌, ◌++◌, OnOk, replicate};

use csp_value::Memory;
use std::alloc::Allocator;

/// Adds so many copies of the value, or is `Memory` where there is no room for them.
pub(crate) fn push_copies<T: Copy, A: Allocator>(
    list: &mut Vec<T, A>,
    count: usize,
    value: T,
) -> Result<(), Memory>
    ensures { OnOk result (list.new.items ≡ list.old.items ++ replicate count value) }
{
    for _ in 0..count {
        list.push(value)?;
    }
    Ok(())
}
