//! What the terms of a script ask of kinds, as equations, and whether kinds fit a tree.
//!
//! The kind of each nametype, field, parameter and bound name has a number. Terms ask for equations between kinds with
//! open ends, which are solved one by one as they are met. By the contract of `Equations` those are the equations of
//! the definitions, no more and no less; and by that of `Equations::solve` what is then known is what was known and
//! they say, or they have no solution.
//!
//! `KnownKinds` takes up the sets of a tree in the order of the text, then its equations and assertions. By its
//! contract it answers at each whether some kinds fit all that was taken up so far, and keeps what is then known of
//! them; at the first item that no kinds fit it answers the place of that one.
#![tactic(auto)]

mod arguments;
mod chain;
mod copies;
mod counts;
mod equations;
mod events;
mod expressions;
mod fields;
mod fit_fault;
mod fitted_items;
mod fitted_sets;
mod heads;
mod item_list;
mod items;
mod known_kinds;
mod misfit;
mod numbering;
mod operators;
mod processes;
mod renamings;
mod sets;
mod state;
mod tree_numbers;
mod values;

pub use chain::{Demand, End, KindNumber};
pub use equations::{Equations, KindEquation};
pub use fit_fault::FitFault;
pub use fitted_sets::Column;
pub use known_kinds::KnownKinds;
pub use misfit::Misfit;
pub use numbering::{NumberedName, Numbering};
pub use tree_numbers::number;
