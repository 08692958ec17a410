//! Counterexamples: what the two sides of a refinement have on the way of a violation, and its text.
//!
//! `counterexample_of` tells the states that the implementation comes through on the path of a violation, where each
//! step between them comes from, and beside them the states of the specification after each beginning of the path, with
//! all that the last ones can do and the least that they offer: each exactly, by the relations of the definitions. It
//! answers that no run by the path ends so, where that is so, and that the specification has too many states along the
//! path, where they are more than were asked for.
//!
//! Where names are unfolded at once `spread_counterexample_of` tells a run of the script as it is written in place of that
//! one, if it finds one: each name that the steps unfold is told then.
//!
//! `push_counterexample` puts behind a string, by its contract, the text that the definitions give of one: the run of
//! the implementation, state by state, with where each tau comes from and the first few states of the specification
//! beside each of its own, what is wrong at its end, and what the specification has there, its initials or its least
//! acceptances with what is lacking of each. `push_path` puts a path there alone, with the states on its way and where
//! its steps come from. `push_state`, `push_action` and `push_step` put the texts of one state, of what a step does and of
//! one step there, by the names of the parts that `put_unfolded` keeps. Where memory is refused, a beginning of the text
//! may have been put there. `doers_in` answers which parts do an event.
#![tactic(auto)]

mod actions;
mod changes;
mod counterexamples;
mod counterparts;
mod doers;
mod ends;
mod events;
mod folding;
mod kind;
mod lacks;
mod legend;
mod looping;
mod loops;
mod marks;
mod origin_text;
mod origins;
mod part_names;
mod paths;
mod run;
mod runs;
mod sides;
mod specification;
mod spreading;
mod standing;
mod states;
mod step;
mod story;
mod style;
mod telling;
mod text;
mod unfolded;
mod waiting;
mod waiting_text;
mod ways;
mod width;

pub use actions::{push_action, push_event};
pub use counterexamples::{Counterexample, Replayed, counterexample_of};
pub use counterparts::Counterpart;
pub use doers::{Doer, doers_in};
pub use looping::Looping;
pub use marks::{push_amount, push_mark, push_number};
pub use origins::origins_along;
pub use part_names::{PartName, put_unfolded};
pub use paths::push_path;
pub use run::Run;
pub use spreading::{Spread, spread_counterexample_of};
pub use states::push_state;
pub use step::{Step, push_step};
pub use style::Style;
pub use telling::Telling;
pub use text::push_counterexample;
pub use waiting::Waiting;
pub use ways::longer;
pub use width::Width;
