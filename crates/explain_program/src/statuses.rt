//! The statuses of answers.

ghost use Rattle.std.specs.Prelude.{◌≡◌};
ghost use Rattle.theory_search.specs.Answer.{as_written};
ghost use Rattle.verdict.specs.Outcome.{outcome_of};
ghost use Rattle.program.specs.Running as program;

use csp_term::AllocHandle;
use verdict::Outcome;

/// The status of an assertion that has this outcome but for its `not`, if it has one: 0 where it holds, 1 where it fails,
/// and 2 where there is no answer.
pub(crate) fn outcome_status<A: AllocHandle>(found: &Outcome<A>, negated: bool) -> u8
    ensures { result ≡ program.outcome_status (as_written negated (outcome_of found.now)) }
{
    match found {
        Outcome::Holds => if negated { 1 } else { 0 },
        Outcome::Fails(_) => if negated { 0 } else { 1 },
        Outcome::Unknown(_) => 2,
        Outcome::Denied => if negated { 0 } else { 1 },
    }
}
