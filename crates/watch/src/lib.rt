//! The clock and the memory of a run, and who watches it.
//!
//! A `Watch` tells how long a run has gone on and how much memory it has had at most, whether someone watches it, and takes
//! a line for the one who does. `MachineWatch` is that of the machine, and `Unwatched` that of a run without a clock. No
//! contract says what a clock gives; of the memory that the machine tells `kilobytes_in` says where it stands.
#![tactic(auto)]

mod cost;
mod machine;
mod memory;
mod watch;

pub use cost::{Cost, cost_since};
pub use machine::MachineWatch;
pub use memory::kilobytes_in;
pub use watch::{Unwatched, Watch};
