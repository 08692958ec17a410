//! Values, events and actions of processes.
//!
//! Each stands for one of the definitions, by `value_of`, `event_of` and `action_of`, and every call here is stated
//! over what it stands for: a copy stands for the same, sets are made and joined as the definitions say, and `==`, the
//! order and the hash of two values are those of what they stand for, whichever allocator holds them.
#![tactic(auto)]

mod action;
mod copy;
mod field_set;
mod handle;
pub mod laws;
mod limits;
mod memory;
mod name;
mod rising;
mod set;
mod value;

pub use action::{Action, Event};
pub use copy::{TryCopy, copy_all};
pub use field_set::FieldSet;
pub use handle::AllocHandle;
pub use memory::Memory;
pub use name::{ChannelId, ConId};
pub use rising::is_rising;
pub use set::SetOf;
pub use value::{Value, copy_values};
