//! The line that an explanation begins with.

ghost use Rattle.std.specs.Prelude.{◌≡◌, IfOk};
ghost use Rattle.std.specs.String.{string_bytes};
ghost use Rattle.theory_syntax.specs.Models.{model_of};
ghost use Rattle.theory_search.specs.Answer.{as_written};
ghost use Rattle.csp_term.specs.Script.{assertion_of, property_of};
ghost use Rattle.csp_term.specs.Term.{process_of};
ghost use Rattle.verdict.specs.Outcome.{outcome_of};
ghost use Rattle.theory_explanation.specs.Headline as told;
ghost use Rattle.theory_notation.specs.Processes.{process_text};
ghost use Rattle.csp_print.specs.Names.{names_of};
ghost use Rattle.csp_print.specs.Writing.{Writes};

use counterexample::{push_mark, push_number};
use csp_print::{Names, push_term};
use csp_term::{AllocHandle, Assertion, Model, Property, Term};
use std::alloc::AllocError;
use verdict::Outcome;

/// The number of the assertion, its answer, and the assertion. `found` is the answer that it has but for a `not`.
pub(crate) fn headline_text<A: AllocHandle>(
    alloc: A,
    names: &Names<'_, A>,
    number: usize,
    assertion: &Assertion<A>,
    found: &Outcome<A>,
) -> Result<String<A>, AllocError>
    ensures { IfOk result (λ text. string_bytes text
        ≡ told.headline (names_of names.now) number (assertion_of assertion.now)
        (as_written assertion.now.negated (outcome_of found.now))) }
{
    let mut text = String::new(alloc);
    push_headline(alloc, names, number, assertion, found, &mut text)?;
    Ok(text)
}

fn push_headline<A: AllocHandle>(
    alloc: A,
    names: &Names<'_, A>,
    number: usize,
    assertion: &Assertion<A>,
    found: &Outcome<A>,
    text: &mut String<A>,
) -> Result<(), AllocError>
    ensures { Writes result text.old text.new
        (told.headline (names_of names.now) number (assertion_of assertion.now)
        (as_written assertion.now.negated (outcome_of found.now))) }
{
    push_number(number, text)?;
    push_mark(" ", text)?;
    push_mark(outcome_word(found, assertion.negated), text)?;
    push_mark("  assert ", text)?;
    push_assertion(alloc, names, assertion, text)?;
    push_mark("\n", text)
}

// The answer in a word.
fn outcome_word<A: AllocHandle>(found: &Outcome<A>, negated: bool) -> &'static str
    ensures { result.now ≡ told.outcome_word (as_written negated (outcome_of found.now)) }
{
    match found {
        Outcome::Unknown(_) => "unknown",
        Outcome::Holds => if negated { "fails" } else { "holds" },
        Outcome::Fails(_) => if negated { "holds" } else { "fails" },
        Outcome::Denied => if negated { "holds" } else { "fails" },
    }
}

/// The assertion as it is written, behind the string.
pub fn push_assertion<A: AllocHandle>(
    alloc: A,
    names: &Names<'_, A>,
    assertion: &Assertion<A>,
    text: &mut String<A>,
) -> Result<(), AllocError>
    ensures { Writes result text.old text.new
        (told.assertion_text (names_of names.now) (assertion_of assertion.now)) }
{
    push_mark(negation_text(assertion.negated), text)?;
    push_property(
        alloc,
        names,
        &assertion.property,
        &assertion.implementation,
        text,
    )
}

fn negation_text(negated: bool) -> &'static str
    ensures { result.now ≡ told.negation_text negated }
{
    if negated { "not " } else { "" }
}

fn push_property<A: AllocHandle>(
    alloc: A,
    names: &Names<'_, A>,
    property: &Property<A>,
    implementation: &Term<A>,
    text: &mut String<A>,
) -> Result<(), AllocError>
    ensures { Writes result text.old text.new
        (told.property_text (names_of names.now) (property_of property.now)
        (process_of implementation.now)) }
{
    match property {
        Property::Refinement {
            model,
            specification,
        } => {
            push_first_side(alloc, names, specification, text)?;
            push_mark(model_text(*model), text)?;
            push_term(names, implementation, text)
        }
        Property::DeadlockFree => {
            push_first_side(alloc, names, implementation, text)?;
            push_mark(" :[deadlock free]", text)
        }
        Property::DivergenceFree => {
            push_first_side(alloc, names, implementation, text)?;
            push_mark(" :[divergence free]", text)
        }
    }
}

// The side behind `assert`, in brackets where its text begins with `not`.
fn push_first_side<A: AllocHandle>(
    alloc: A,
    names: &Names<'_, A>,
    side: &Term<A>,
    text: &mut String<A>,
) -> Result<(), AllocError>
    ensures { Writes result text.old text.new
        (told.first_side (process_text (names_of names.now) (process_of side.now))) }
{
    let mut alone = String::new(alloc);
    push_term(names, side, &mut alone)?;
    if alone.as_str().starts_with("not ") {
        push_mark("(", text)?;
        push_mark(alone.as_str(), text)?;
        return push_mark(")", text);
    }
    push_mark(alone.as_str(), text)
}

// What stands between the sides of a refinement.
fn model_text(model: Model) -> &'static str
    ensures { result.now ≡ told.model_text (model_of model) }
{
    match model {
        Model::Traces => " [T= ",
        Model::Failures => " [F= ",
    }
}
