//! Where a step of a term comes from, by the ways in which it may come about.
//!
//! A step comes about by the process itself, through a step of a part, or by both parts together. For each form of a
//! process a function here answers all ways in which a step of it, by an action to a target, may come about. Each tells
//! only origins of the step, where all are closed no rule gives it, and the parts are smaller. Where a condition or a
//! set of events has no value there is no way: of the steps of such a process nothing is told. What hiding, renaming and
//! replicated forms need beside the step itself, events of the body and the chain of the instances, is made before and
//! lent to the ways. `origin_of_step` goes along the ways, down to the part that moves, and answers an origin of each
//! step that the rules give.
#![tactic(auto)]

mod alphabetised;
mod branch;
mod call;
mod choice;
mod deciding;
mod finding;
mod frame;
mod generalised;
mod hiding;
mod interleaving;
mod interrupt;
mod leaf;
mod made;
mod operator;
mod origin;
mod passage;
mod passing;
mod prefix;
mod renaming;
mod replicated;
mod sequential;
mod settled;
mod sliding;
mod tested;
mod together;
mod way;
mod ways;

pub use alphabetised::{Alphabetised, alphabetised_ways};
pub use branch::{Conditional, conditional_ways, guard_ways};
pub use call::call_ways;
pub use choice::{external_ways, internal_ways};
pub use finding::origin_of_step;
pub use generalised::{Generalised, generalised_ways};
pub use hiding::{Hidden, hidden_events, hiding_ways};
pub use interleaving::interleaving_ways;
pub use interrupt::interrupt_ways;
pub use leaf::{idle_ways, skip_ways};
pub use origin::Origin;
pub use passage::{Passage, Side};
pub use prefix::prefix_ways;
pub use renaming::{Renamed, renamed_events, renaming_ways};
pub use replicated::{Replicated, chain_of, replicated_ways};
pub use sequential::sequential_ways;
pub use sliding::sliding_ways;
pub use way::{LentAction, LentPassage, Part, Way};
