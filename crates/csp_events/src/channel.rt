//! Channels as a script declares them.

ghost use Rattle.std.specs.Prelude.{◌≡◌};

use csp_value::{FieldSet, Memory, TryCopy, copy_all};
use std::alloc::Allocator;

/// A channel with its spelling, and the set of the values of each of its fields.
#[derive(Drop)]
#[derive_where(PartialEq, Eq, PartialOrd, Ord, Hash)]
pub struct Channel<A: Allocator> {
    /// The name as it is printed.
    pub spelling: String<A>,
    /// The set of each field, in order.
    pub fields: Vec<FieldSet<A>, A>,
}

impl<A: Allocator + Copy> TryCopy<A> for Channel<A> {
    ghost use Rattle.csp_events.specs.Channels.{channel_of};

    ghost is_copy = { λ c copy. channel_of copy ≡ channel_of c };

    fn try_copy(&self, alloc: A) -> Result<Channel<A>, Memory> {
        Ok(Channel {
            spelling: String::from_str(alloc, self.spelling.as_str())?,
            fields: copy_all(alloc, self.fields.as_slice())?,
        })
    }
}
