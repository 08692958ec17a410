//! What is told of an assertion.

ghost use Rattle.std.specs.Prelude.{◌≡◌, IfOk};
ghost use Rattle.std.specs.String.{string_bytes};
ghost use Rattle.csp_term.specs.Script.{assertion_of, script_of};
ghost use Rattle.verdict.specs.Outcome.{outcome_of};
ghost use Rattle.theory_explanation.specs.Accounts.{account_text, told_text};
ghost use Rattle.theory_explanation.specs.Telling.{IsAccount};
ghost use Rattle.csp_print.specs.Writing.{Writes};
ghost use Rattle.counterexample.specs.Styles.{style_of};
ghost use Rattle.explanation.specs.Accounts.{ComesRound, account_of};

use crate::account::Account;
use crate::faults::{push_found, push_sentence};
use crate::headline::headline_text;
use crate::opening::opening;
use crate::question::Question;
use counterexample::{Style, push_counterexample, push_mark};
use csp_term::{AllocHandle, Memory, Script};
use verdict::Outcome;

/// What is told of an assertion, with its number: the headline of the assertion as it is written, with its outcome, and
/// behind it the account of that. `found` is the outcome that it has but for a `not`.
///
/// `Memory` says that there is no room to tell.
pub fn tell<A: AllocHandle>(
    alloc: A,
    style: &Style<'_, '_, A>,
    script: &Script<A>,
    question: &Question<'_, A>,
    found: &Outcome<A>,
    account: &Account<A>,
) -> Result<String<A>, Memory>
    requires { let written = assertion_of question.now.written.now in
        let asked = assertion_of question.now.asked.now in
        let is = IsAccount (style_of style.now) (script_of script.now) written asked in
        is (outcome_of found.now) (account_of account.now) }
    ensures { let written = assertion_of question.now.written.now in
        let asked = assertion_of question.now.asked.now in
        let told = told_text (style_of style.now) (script_of script.now) question.now.number
        written asked (outcome_of found.now) (account_of account.now) in
        IfOk result (λ text. string_bytes text ≡ told) }
{
    let mut text = headline_text(alloc, style.names, question.number, question.written, found)?;
    push_mark(opening(question.asked.negated, found), &mut text)?;
    push_account(alloc, style, script, account, &mut text)?;
    Ok(text)
}

// The account, behind the string.
fn push_account<A: AllocHandle>(
    alloc: A,
    style: &Style<'_, '_, A>,
    script: &Script<A>,
    account: &Account<A>,
    text: &mut String<A>,
) -> Result<(), Memory>
    requires round { ComesRound account.now }
    ensures { Writes result text.old text.new
        (account_text (style_of style.now) (script_of script.now) (account_of account.now)) }
{
    match account {
        Account::Bare => Ok(()),
        Account::Shown(shown, counterexample) => {
            push_counterexample(alloc, style, shown, counterexample, text)
        }
        Account::WideEnd => push_sentence(
            "  behind its trace taus lead to too many states to tell one that goes on for ever\n",
            text,
        ),
        Account::Stuck(hindrance, run) => push_found(alloc, style, script, *hindrance, run, text),
    }
}
