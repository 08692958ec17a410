//! Assertions.

ghost use Rattle.std.specs.Prelude.{◌≡◌};

use crate::property::Property;
use crate::term::Term;
use csp_value::{Memory, TryCopy};
use std::alloc::Allocator;

/// That the implementation has the property, or with `not` that it does not.
#[derive(Drop)]
#[derive_where(PartialEq, Eq, PartialOrd, Ord, Hash)]
pub struct Assertion<A: Allocator> {
    /// Whether `not` stands before it.
    pub negated: bool,
    /// What is asked of the implementation.
    pub property: Property<A>,
    /// The right side of a refinement, or the one side.
    pub implementation: Term<A>,
}

impl<A: Allocator + Copy> TryCopy<A> for Assertion<A> {
    ghost use Rattle.csp_term.specs.Script.{assertion_of};

    ghost is_copy = { λ a copy. assertion_of copy ≡ assertion_of a };

    fn try_copy(&self, alloc: A) -> Result<Assertion<A>, Memory> {
        Ok(Assertion {
            negated: self.negated,
            property: self.property.try_copy(alloc)?,
            implementation: self.implementation.try_copy(alloc)?,
        })
    }
}
