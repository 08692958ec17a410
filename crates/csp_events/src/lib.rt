//! Channels, sets of events and renamings: as they are written, and evaluated once to look up many events in them.
//!
//! A set of events stands for one of the definitions, by `event_set_of`, and every call here is stated over that one: a
//! copy stands for the same, `==`, the order and the hash of two sets are those of what they stand for, whichever
//! allocator holds them, and values are put in as the definitions say. Over declared types and channels
//! `EventTest::of` answers the test that a set is, and `Images::of` what a renaming makes of events; or the first cause
//! for which a part of them has no value. What they list is sorted, and `EventTest::holds` and `Images::of_event` find
//! an event in it by halving: they ask that it is sorted, which `of` promises.
#![tactic(auto)]

mod channel;
mod event_expression;
mod event_set;
mod event_test;
mod images;
pub mod laws;
mod limits;
mod renaming_pair;
mod sources;
mod substitution;

pub use channel::Channel;
pub use event_expression::EventExpression;
pub use event_set::EventSet;
pub use event_test::{EventTest, field_sets, whole_event};
pub use images::{Images, are_channels, same_sets};
pub use limits::{are_pairs_within_depth, room_left_by_pairs};
pub use renaming_pair::RenamingPair;
pub use substitution::put_in_pairs;
pub use theory_syntax::EventSetOperator;
