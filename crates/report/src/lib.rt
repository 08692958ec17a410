//! The report: a line for each outcome, and the sinks that it goes out to.
//!
//! `write` gives a sink the bytes of the report as the definitions say them, whole and in order. It answers an error
//! only where the sink has failed, or took nothing, and then a beginning of the report went out and no more. It takes
//! no memory. `push_all` does so for any text, `push_each` for several, `push_number` for a number, and
//! `push_fields` for values.
#![tactic(auto)]

mod pushing;
mod report;
mod sink;
mod values;

pub use pushing::{push_all, push_each, push_number};
pub use report::{WriteFault, write};
pub use sink::{Buffer, Failed, Out, Sink};
pub use values::push_fields;
