//! Values that an evaluation reads.

ghost use Rattle.std.specs.Prelude.{◌≡◌, IfOk};
ghost use Rattle.csp_value.specs.Value.{value_of};
ghost use Rattle.csp_expression.specs.Evaluation.{seen_value};

use csp_value::{Memory, Value};
use std::alloc::Allocator;

/// A value that lies in the expression, or one that was made.
#[derive(Drop)]
pub enum Seen<'e, A: Allocator> {
    /// It lies in the expression, or in a binding.
    Lent(&'e Value<A>),
    /// It was made by the evaluation.
    Made(Value<A>),
}

impl<'e, A: Allocator + Copy> Seen<'e, A> {
    /// The value, where it lies.
    pub fn value(&self) -> &Value<A>
        ensures { value_of result.now ≡ seen_value self.now }
    {
        match self {
            Seen::Lent(value) => value,
            Seen::Made(value) => value,
        }
    }

    /// The value, which is copied where it was lent. `Memory` where there is no room for that.
    pub fn into_value(self, alloc: A) -> Result<Value<A>, Memory>
        ensures { IfOk result (λ value. value_of value ≡ seen_value self.entry) }
    {
        match self {
            Seen::Lent(value) => Ok(value.try_copy(alloc)?),
            Seen::Made(value) => Ok(value),
        }
    }
}
