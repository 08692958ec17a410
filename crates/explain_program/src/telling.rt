//! What is told of one assertion.

ghost use Rattle.std.specs.Prelude.{◌≡◌, ◌++◌, IfOk};
ghost use Rattle.std.specs.String.{string_bytes};
ghost use Rattle.theory_search.specs.Answer.{as_written};
ghost use Rattle.theory_search.specs.Terms.{IsAssertionOf};
ghost use Rattle.csp_term.specs.Script.{assertion_of, property_of, script_of};
ghost use Rattle.csp_print.specs.Names.{names_of};
ghost use Rattle.counterexample.specs.Folding.{telling_of};
ghost use Rattle.counterexample.specs.Styles.{style_of};
ghost use Rattle.counterexample.specs.Widths.{width_of};
ghost use Rattle.explanation.specs.Running.{HasStop, HasViolation, stop_in};
ghost use Rattle.verdict.specs.Outcome.{outcome_of};
ghost use Rattle.explain_program.specs.Asking.{bounds_asked, request_of, style_for, taus_told, telling_for, width_of_number};
ghost use Rattle.explain_program.specs.Sizes.{IsSizeFor};
ghost use Rattle.explain_program.specs.Stops.{stop_kept};
ghost use Rattle.named_scripts.specs.Naming.{labels_of};
ghost use Rattle.explain_program.specs.Telling.{IsToldAsAsked, size_asked};

use crate::counting::with_size;
use crate::objects::{Told, object_line};
use crate::searching::Answer;
use counterexample::{Style, Telling, Width};
use csp_print::Names;
use csp_term::{Action, AllocHandle, Memory};
use explain_settings::{Format, Settings};
use explanation::{Question, find_account, tell};
use named_scripts::NamedScript;

/// What is told of the assertion with this answer, in the format that is asked for, and where it is asked for, how large the
/// search was.
pub(crate) fn explanation_text<A: AllocHandle>(
    alloc: A,
    settings: &Settings<'_>,
    named: &NamedScript<'_, A>,
    question: &Question<'_, A>,
    answer: &Answer<A>,
) -> Result<String<A>, Memory>
    requires terms { IsAssertionOf (script_of named.now.script)
        (assertion_of question.now.asked.now) }
    requires written { IsAssertionOf (script_of named.now.script)
        (assertion_of question.now.written.now) }
    requires shown { HasViolation (script_of named.now.script) (assertion_of question.now.asked.now)
        (outcome_of answer.now.found) }
    requires size { let it = script_of named.now.script in
        let asked = assertion_of question.now.asked.now in
        let outcome = as_written question.now.written.now.negated (outcome_of answer.now.found) in
        IsSizeFor it asked (bounds_asked settings.now) outcome answer.now.size }
    requires stop { let it = script_of named.now.script in
        let asked = assertion_of question.now.asked.now in
        HasStop it asked (outcome_of answer.now.found) (stop_kept answer.now.stop) }
    ensures { let it = script_of named.now.script in
        let labels = labels_of named.now in
        let written = assertion_of question.now.written.now in
        let asked = assertion_of question.now.asked.now in
        let outcome = as_written written.negated (outcome_of answer.now.found) in
        let told = IsToldAsAsked (request_of settings.now) it labels question.now.number in
        IfOk result (λ text. told written asked outcome (string_bytes text)) }
{
    let style = style(settings, &named.names);
    let script = &named.script;
    let found = &answer.found;
    let account = find_account(alloc, &style, script, question, found, lent(&answer.stop))?;
    let text = tell(alloc, &style, script, question, found, &account)?;
    match settings.format {
        Format::Text => in_words(settings, question, answer, text),
        Format::Json => {
            let told = Told {
                account: &account,
                words: text.as_str(),
            };
            Ok(object_line(alloc, settings, named, question, answer, &told)?)
        }
    }
}

// The words, and behind them where it is asked for how large the search was.
fn in_words<A: AllocHandle>(
    settings: &Settings<'_>,
    question: &Question<'_, A>,
    answer: &Answer<A>,
    words: String<A>,
) -> Result<String<A>, Memory>
    ensures { let property = property_of question.now.asked.now.property in
        let size = size_asked settings.now.count property answer.now.size in
        IfOk result (λ text. string_bytes text ≡ string_bytes words ++ size) }
{
    if settings.count {
        with_size(&question.asked.property, answer.size, words)
    } else {
        Ok(words)
    }
}

// How many states of a specification are told at a time.
const FEW: usize = 3;

// A specification with a normal form within the limits has no more states after a trace than they allow, so that they are
// told.
fn style<'n, 't, A: AllocHandle>(
    settings: &Settings<'_>,
    names: &'n Names<'t, A>,
) -> Style<'n, 't, A>
    ensures { style_of result ≡ style_for (request_of settings.now) (names_of names.now) }
{
    Style {
        names,
        width: width(settings.width),
        few: FEW,
        most: settings.max_nodes,
        taus: taus(settings.width),
        reach: settings.max_pairs,
        telling: telling(settings.events, settings.steps),
    }
}

// Events alone, or each step, one by one or with the names that it unfolds.
fn telling(events: bool, steps: bool) -> Telling
    ensures { telling_of result ≡ telling_for events steps }
{
    if events {
        Telling::ByEvents
    } else if steps {
        Telling::EachStep
    } else {
        Telling::Folded
    }
}

// The path, lent, if there is one.
fn lent<A: AllocHandle>(path: &Option<Vec<Action<A>, A>>) -> Option<&[Action<A>]>
    ensures { stop_in result ≡ stop_kept path.now }
{
    match path {
        Some(path) => Some(path.as_slice()),
        None => None,
    }
}

// How many taus of a loop are told, where states are cut.
const TAUS: usize = 50;

// Where states are told whole, so are loops.
fn taus(number: usize) -> Width
    ensures { width_of result ≡ taus_told (width_of_number number) }
{
    if number == 0 {
        Width::Whole
    } else {
        Width::UpTo(TAUS)
    }
}

// 0 stands for all characters.
fn width(number: usize) -> Width
    ensures { width_of result ≡ width_of_number number }
{
    if number == 0 {
        Width::Whole
    } else {
        Width::UpTo(number)
    }
}
