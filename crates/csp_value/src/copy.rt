//! Copies in a given allocator.

ghost use Rattle.std.specs.Prelude.{IfOk};
ghost use Rattle.csp_value.specs.Copies.{AreCopies};

use crate::memory::Memory;
use std::alloc::Allocator;

/// A type whose values can be copied into a given allocator.
pub trait TryCopy<A: Allocator>: Sized + Drop {
    /// That the second value is a copy of the first one.
    ghost is_copy: { Self → Self → Type 0 };

    /// An equal value in the given allocator, or `Memory` where that has no room.
    fn try_copy(&self, alloc: A) -> Result<Self, Memory>
        ensures { IfOk result (λ copy. is_copy self.now copy) };
}

/// A copy of each item, in order, or `Memory` where there is no room.
pub fn copy_all<A: Allocator + Copy, T: TryCopy<A>>(
    alloc: A,
    items: &[T],
) -> Result<Vec<T, A>, Memory>
    ensures { IfOk result (λ all. AreCopies T.is_copy items.now all.items) }
{
    let mut all = Vec::new(alloc);
    for item in items {
        all.push(item.try_copy(alloc)?)?;
    }
    Ok(all)
}
