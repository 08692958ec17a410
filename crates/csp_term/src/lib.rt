//! Terms of processes and the scripts that hold them.
//!
//! A term stands for a process of the definitions, by `process_of`, and every call here is stated over that process: a
//! copy stands for the same process, values are put in as the definitions say, the limits are decided exactly, and
//! `==`, the order and the hash of two terms are those of their processes, whichever allocator holds them. What a term
//! within the limits measures is answered by `size_of` and `depth_of`. The type of a script keeps that some kinds fit
//! it.
#![tactic(auto)]

mod assertion;
mod checked_script;
mod declared;
mod field;
mod hiding;
pub mod laws;
mod limits;
mod measures;
mod name;
mod operands;
mod property;
mod replicated;
mod script;
mod substitution;
mod term;

pub use assertion::Assertion;
pub use checked_script::Script;
pub use csp_events::Channel;
pub use csp_expression::{Cause, DatatypeId, Fault, Name, NametypeId};
pub use csp_value::{Action, AllocHandle, ChannelId, Event, Memory, TryCopy, copy_all};
pub use field::Field;
pub use limits::{MAX_DEPTH, MAX_SIZE};
pub use measures::{depth_of, size_of};
pub use name::EquationId;
pub use property::Property;
pub use script::{Constructor, Equation, ScriptParts};
pub use substitution::{TermFault, bind};
pub use term::{Term, TermForm};
pub use theory_syntax::{Model, ProcessOperator, ReplicatedOperator, Unfolding};
