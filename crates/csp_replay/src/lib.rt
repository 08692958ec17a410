//! The states on the way of a violation, and of a run to a term that is stuck.
//!
//! A violation shows a path and what is wrong at its end. `replay_of` finds terms that the path leads through, one before
//! each action and one at the end, which shows what is wrong; or that no run by the path ends so. `states_along` tells
//! the states of a term after the trace of each beginning of a path, `initials_of` and `least_acceptances_of` what
//! some states can do and offer, each exactly.
//!
//! Where a check of an assertion has no answer since a side comes to a term that is faulty or large, `run_to_stuck`
//! finds the way there: the terms that runs lead to are fired, those first that fewer steps lead to, until one is stuck
//! so.
#![tactic(auto)]

mod acceptances;
mod adding;
mod along;
mod closure;
mod ending;
mod evidence;
mod firing;
mod hindrance;
mod initials;
mod lasso;
mod layer;
mod layers;
mod least;
mod looking;
mod met;
mod replaying;
mod running;
mod stopping;
mod walking;
mod way;
mod way_to_stuck;

pub use acceptances::least_acceptances_of;
pub use along::{Along, states_along};
pub use hindrance::Hindrance;
pub use initials::initials_of;
pub use lasso::Lasso;
pub use replaying::{Replay, replay_of};
pub use running::run_to_stuck;
pub use stopping::replay_to_stuck;
pub use way_to_stuck::StuckRun;
