//! The checked script of a tree.
//!
//! `check` looks at the names and the kinds of a tree in three passes: its declared names, then the sets and the names
//! in use, then the equations and assertions. By its contract it answers the script that the tree stands for, of which
//! some kinds fit all, or the refusal that the definitions give the tree, at its place.
//!
//! The sets, of nametypes and of the fields of constructors and channels, are those that `sets_of` answers: each is
//! resolved, fitted with a kind and evaluated once, over the types that are declared above it. It goes over the
//! declarations in their order, keeps the first refusal and goes on behind it, since the types and the field sets of
//! all channels are of use there too.
#![tactic(auto)]

mod channels;
mod clauses;
mod datatypes;
mod faults;
mod fields;
mod fit;
mod items;
mod looking;
mod names_in_order;
mod parts;
mod pass;
mod passes;
mod set_refusals;
mod sets;
mod spellings;
mod table;
mod uses;

pub use csp_names::{KindFault, Refused};
pub use passes::check;
pub use sets::{RefusedSet, Sets, sets_of};
