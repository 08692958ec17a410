//! What is told of an answered assertion: its headline, and why it has its outcome.
//!
//! `find_account` finds how an assertion comes to its outcome. By its contract that is what the definitions account for:
//! where it fails, a run by the path of the violation, state by state, with where its steps come from, beside what the
//! specification has along it and at its end, with the loop that goes on there or the parts that wait; and where a state
//! that is faulty or large is why there is no answer, a run of a side to such a state. Where names are unfolded at once, the
//! runs are those of the script as it is written, if such are found.
//!
//! `tell` makes the text of one assertion, by its account: the number, the answer and the assertion, and behind them the
//! run state by state, what is wrong at its end, and what the specification has there; or why there is no answer, with
//! what is to blame in a faulty state. The text is made whole or not at all.
//! `push_assertion` puts the text of an assertion behind another.
#![tactic(auto)]

mod account;
mod blame;
mod culprits;
mod faults;
mod headline;
mod opening;
mod question;
mod reasons;
mod sides;
mod spread_sides;
mod telling;
mod told_run;

pub use account::{Account, find_account};
pub use headline::push_assertion;
pub use question::Question;
pub use sides::SideRun;
pub use telling::tell;
pub use told_run::ToldRun;
