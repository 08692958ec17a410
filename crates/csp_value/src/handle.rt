//! Allocators that are passed by a small handle.

ghost use Rattle.csp_value.specs.Handle.{IsHandle};

use std::alloc::{Allocator, Global};

/// An allocator whose handle takes no room, or that of a pointer, so that what holds it is of a known size. Any
/// allocator is lent as such a handle, by a reference.
pub trait AllocHandle: Allocator + Copy {
    /// That the handle has the size of nothing, or of a pointer.
    ghost small: { IsHandle Self.row };
}

impl AllocHandle for Global {
    ghost use Rattle.std.specs.Prelude.{refl};
    ghost use Rattle.std.proofs.Common.{inl};

    ghost small = { inl (refl, refl) };
}

impl<'a, B: Allocator> AllocHandle for &'a B {
    ghost use Rattle.std.specs.Prelude.{refl};
    ghost use Rattle.std.proofs.Common.{inr};

    ghost small = { inr (refl, refl) };
}
