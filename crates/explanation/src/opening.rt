//! What is told before an account.

ghost use Rattle.std.specs.Prelude.{◌≡◌};
ghost use Rattle.verdict.specs.Outcome.{outcome_of};
ghost use Rattle.theory_explanation.specs.Accounts as told;

use crate::reasons::reason;
use csp_term::AllocHandle;
use verdict::Outcome;

/// What is told before the account of what is found of an assertion, which may have a `not`.
pub(crate) fn opening<A: AllocHandle>(negated: bool, found: &Outcome<A>) -> &'static str
    ensures { result.now ≡ told.opening_text negated (outcome_of found.now) }
{
    match found {
        Outcome::Holds => holding(negated),
        Outcome::Fails(_) => failing(negated),
        Outcome::Unknown(why) => reason(*why),
        Outcome::Denied => "",
    }
}

// What is told where an assertion holds but for its `not`, if it has one.
fn holding(negated: bool) -> &'static str
    ensures { result.now ≡ told.holding_text negated }
{
    if negated {
        "  without `not` it holds\n"
    } else {
        ""
    }
}

// What is told before a violation of an assertion without its `not`, if it has one.
fn failing(negated: bool) -> &'static str
    ensures { result.now ≡ told.failing_text negated }
{
    if negated {
        "  without `not` it fails:\n"
    } else {
        ""
    }
}
