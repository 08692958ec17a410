//! Memory that is refused once: an allocator that refuses one request, which is chosen by its number, and grants the
//! others.
//!
//! Tests lend it to what they look at, in several threads too, to see that refused memory changes no answer. The handle
//! is `&RefusesOnce`.
#![tactic(auto)]

mod refuses_once;

pub use refuses_once::RefusesOnce;
