//! The names of a tree, by their numbers, for texts of its terms.
//!
//! `names_of` goes over the declarations once, in the order of the text. By its contract the names that it answers are
//! those that the definitions give the tree: each class in the order of its declarations, and the bound names where
//! they first stand.
#![tactic(auto)]

mod binders;
mod bound_names;
mod declared_names;
mod naming;

pub use naming::names_of;
