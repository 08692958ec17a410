//! Accounts of what is found.

ghost use Rattle.std.specs.Prelude.{◌≡◌, IfOk, Some, option_map};
ghost use Rattle.theory_search.specs.Terms.{IsAssertionOf};
ghost use Rattle.theory_runs.specs.States.{HasEnd};
ghost use Rattle.theory_explanation.specs.Faults as faults;
ghost use Rattle.theory_explanation.specs.Telling.{IsAccount, TellsReplay, TellsStuck, TellsViolation};
ghost use Rattle.csp_term.specs.Script.{assertion_of, script_of};
ghost use Rattle.csp_term.specs.Term.{process_of};
ghost use Rattle.verdict.specs.Outcome.{outcome_of, violation_of, why_of};
ghost use Rattle.csp_replay.specs.Hindrance.{hindrance_of};
ghost use Rattle.counterexample.specs.Styles.{style_of};
ghost use Rattle.explanation.specs.Accounts.{account_of};
ghost use Rattle.explanation.specs.Running.{HasStop, HasViolation, IsStop, stop_in};
ghost use Rattle.theory_search.specs.Outcome.{Unknown};

use crate::question::Question;
use crate::sides::{SideRun, side_run};
use crate::spread_sides::spread_side;
use counterexample::{
    Counterexample, Replayed, Spread, Style, counterexample_of, spread_counterexample_of,
};
use csp_replay::Hindrance;
use csp_term::{Action, AllocHandle, Assertion, Memory, Script};
use verdict::{Outcome, Shown, Why};

/// What an explanation tells of what is found, beside its opening.
#[derive(Drop)]
pub enum Account<A: AllocHandle> {
    /// Nothing.
    Bare,
    /// The violation, by the path that it is told by, with the states that lead to it.
    Shown(Shown<A>, Counterexample<A>),
    /// That a divergence has too many states at its end.
    WideEnd,
    /// A run of a side to a state that is stuck by this; or none, where the specification has too many states for one.
    Stuck(Hindrance, Option<SideRun<A>>),
}

/// An account of what is found of an assertion between terms of the script. `found` is the outcome that it has but for a
/// `not`. Where that is a violation, a run by its path ends with its evidence, and the account is such a run, state by
/// state, beside what the specification has along the path. Where there is no answer for a state, it is a run of a side to
/// such a state: `stop` is the path of the implementation that stopped the search, and with none no search was begun, for
/// the specification's sake.
///
/// Where names are unfolded at once, each such run is one of the script as it is written, if one is found: with more taus
/// that does the same events, and comes to the same state.
///
/// `Memory` says that there is no room to find it.
pub fn find_account<A: AllocHandle>(
    alloc: A,
    style: &Style<'_, '_, A>,
    script: &Script<A>,
    question: &Question<'_, A>,
    found: &Outcome<A>,
    stop: Option<&[Action<A>]>,
) -> Result<Account<A>, Memory>
    requires terms { IsAssertionOf (script_of script.now) (assertion_of question.now.asked.now) }
    requires written { IsAssertionOf (script_of script.now)
        (assertion_of question.now.written.now) }
    requires shown { HasViolation (script_of script.now) (assertion_of question.now.asked.now)
        (outcome_of found.now) }
    requires stop { HasStop (script_of script.now) (assertion_of question.now.asked.now)
        (outcome_of found.now) (stop_in stop) }
    ensures { let written = assertion_of question.now.written.now in
        let asked = assertion_of question.now.asked.now in
        let is = IsAccount (style_of style.now) (script_of script.now) written asked in
        IfOk result (λ account. is (outcome_of found.now) (account_of account)) }
{
    match found {
        Outcome::Holds => Ok(Account::Bare),
        Outcome::Fails(shown) => violation_account(alloc, style, script, question, shown),
        Outcome::Unknown(why) => unknown_account(alloc, style, script, question, *why, stop),
        Outcome::Denied => Ok(Account::Bare),
    }
}

// The violation, by a run of the script as it is written, where that is another one than the script and such a run is
// found, and else as the names of the script are read.
fn violation_account<A: AllocHandle>(
    alloc: A,
    style: &Style<'_, '_, A>,
    script: &Script<A>,
    question: &Question<'_, A>,
    shown: &Shown<A>,
) -> Result<Account<A>, Memory>
    requires terms { IsAssertionOf (script_of script.now) (assertion_of question.now.asked.now) }
    requires written { IsAssertionOf (script_of script.now)
        (assertion_of question.now.written.now) }
    requires run { HasEnd (script_of script.now) (process_of question.now.asked.now.implementation)
        (violation_of shown.now) }
    ensures { let written = assertion_of question.now.written.now in
        let asked = assertion_of question.now.asked.now in
        let tells = TellsViolation (style_of style.now) (script_of script.now) written asked in
        IfOk result (λ account. tells (violation_of shown.now) (account_of account)) }
{
    let start = &question.written.implementation;
    let found = spread_counterexample_of(alloc, style, script, start, question.asked, shown)?;
    match found {
        Some(spread) => {
            let Spread {
                shown,
                counterexample,
            } = spread;
            Ok(Account::Shown(shown, counterexample))
        }
        None => replay_account(alloc, style, script, question.asked, shown),
    }
}

// A counterexample of the violation: a run by its path, state by state, beside what the specification has along it.
fn replay_account<A: AllocHandle>(
    alloc: A,
    style: &Style<'_, '_, A>,
    script: &Script<A>,
    assertion: &Assertion<A>,
    shown: &Shown<A>,
) -> Result<Account<A>, Memory>
    requires terms { IsAssertionOf (script_of script.now) (assertion_of assertion.now) }
    requires run { HasEnd (script_of script.now) (process_of assertion.now.implementation)
        (violation_of shown.now) }
    ensures { let tells = TellsReplay (style_of style.now) (script_of script.now)
        (assertion_of assertion.now) in
        IfOk result (λ account. tells (violation_of shown.now) (account_of account)) }
{
    let found = counterexample_of(alloc, script, assertion, shown, style.most, style.reach)?;
    match found {
        Replayed::Counterexample(counterexample) => {
            let copy = shown.try_copy(alloc)?;
            Ok(Account::Shown(copy, counterexample))
        }
        Replayed::Nowhere => unreachable!(),
        Replayed::TooMany => Ok(Account::WideEnd),
    }
}

// A run to a state that is faulty or large, where that is why there is no answer.
fn unknown_account<A: AllocHandle>(
    alloc: A,
    style: &Style<'_, '_, A>,
    script: &Script<A>,
    question: &Question<'_, A>,
    why: Why,
    stop: Option<&[Action<A>]>,
) -> Result<Account<A>, Memory>
    requires terms { IsAssertionOf (script_of script.now) (assertion_of question.now.asked.now) }
    requires written { IsAssertionOf (script_of script.now)
        (assertion_of question.now.written.now) }
    requires stop { HasStop (script_of script.now) (assertion_of question.now.asked.now)
        (Unknown (why_of why)) (stop_in stop) }
    ensures { let written = assertion_of question.now.written.now in
        let asked = assertion_of question.now.asked.now in
        let tells = TellsStuck (style_of style.now) (script_of script.now) written asked in
        IfOk result (λ account. tells (faults.hindrance (why_of why)) (account_of account)) }
{
    let stuck_by = hindrance(why);
    let Some(hindrance) = stuck_by else {
        return Ok(Account::Bare);
    };
    stuck_account(alloc, style, script, question, hindrance, stop)
}

// What a state of a side is stuck by, where there is no answer for that.
fn hindrance(why: Why) -> Option<Hindrance>
    ensures { option_map hindrance_of result ≡ faults.hindrance (why_of why) }
{
    match why {
        Why::Pairs => None,
        Why::Nodes => None,
        Why::Term => Some(Hindrance::Size),
        Why::Fault(fault) => Some(Hindrance::Fault(fault)),
        Why::Memory => None,
    }
}

// A run of the side that stops, where one is found: by the script as it is written, or else as names are read.
fn stuck_account<A: AllocHandle>(
    alloc: A,
    style: &Style<'_, '_, A>,
    script: &Script<A>,
    question: &Question<'_, A>,
    hindrance: Hindrance,
    stop: Option<&[Action<A>]>,
) -> Result<Account<A>, Memory>
    requires terms { IsAssertionOf (script_of script.now) (assertion_of question.now.asked.now) }
    requires written { IsAssertionOf (script_of script.now)
        (assertion_of question.now.written.now) }
    requires stop { IsStop (script_of script.now) (assertion_of question.now.asked.now)
        (hindrance_of hindrance) (stop_in stop) }
    ensures { let written = assertion_of question.now.written.now in
        let asked = assertion_of question.now.asked.now in
        let tells = TellsStuck (style_of style.now) (script_of script.now) written asked in
        IfOk result (λ account. tells (Some (hindrance_of hindrance)) (account_of account)) }
{
    let found = side_run(alloc, script, question.asked, hindrance, stop, style.reach)?;
    let Some(run) = found else {
        return Ok(Account::Stuck(hindrance, None));
    };
    let spread = spread_side(alloc, script, question.written, &run)?;
    match spread {
        Some(told) => Ok(Account::Stuck(hindrance, Some(told))),
        None => Ok(Account::Stuck(hindrance, Some(run))),
    }
}
