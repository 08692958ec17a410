//! Answered assertions as lines.

ghost use Rattle.std.specs.Prelude.{◌≡◌, [], ◌∷◌, IfOk, option_map};
ghost use Rattle.std.specs.String.{string_bytes};
ghost use Rattle.theory_search.specs.Answer.{as_written};
ghost use Rattle.theory_explanation.specs.Headline.{outcome_word};
ghost use Rattle.theory_objects.specs.Answers.{answer_fields, head_fields, placed_fields};
ghost use Rattle.theory_objects.specs.Fields.{object_line, text_field};
ghost use Rattle.csp_lex.specs.Places.{place_of};
ghost use Rattle.csp_term.specs.Script.{property_of};
ghost use Rattle.csp_print.specs.Names.{names_of};
ghost use Rattle.verdict.specs.Outcome.{outcome_of};
ghost use Rattle.explanation_objects.specs.Answers.{answered_of, sizes_told};
ghost use Rattle.explanation_objects.specs.Putting.{Puts};

use crate::accounts::put_account;
use crate::fields::{put_number, put_text};
use crate::found::put_found;
use crate::lines::{begin_line, end_line};
use crate::places::put_place;
use crate::sizes::{Size, put_size};
use csp_lex::Place;
use csp_print::Names;
use csp_term::{AllocHandle, Assertion};
use explanation::{Account, push_assertion};
use json::Writer;
use std::alloc::AllocError;
use verdict::Outcome;

/// An answered assertion.
#[derive(Clone, Copy, Drop)]
pub struct Answered<'a, A: AllocHandle> {
    /// Its number.
    pub number: usize,
    /// Where it stands in the text, if that is known.
    pub place: Option<Place>,
    /// The assertion, as it is written.
    pub assertion: &'a Assertion<A>,
    /// The outcome that it has but for a `not`.
    pub found: &'a Outcome<A>,
    /// The account of that.
    pub account: &'a Account<A>,
    /// How large the search for it was, if that is told.
    pub size: Option<Size>,
    /// What is told of it in words.
    pub words: &'a str,
}

/// The line of the answered assertion.
pub fn answer_line<A: AllocHandle>(
    alloc: A,
    names: &Names<'_, A>,
    answered: &Answered<'_, A>,
) -> Result<String<A>, AllocError>
    ensures { let size = sizes_told (property_of answered.now.assertion.now.property)
        answered.now.size in
        let fields = answer_fields (names_of names.now) (answered_of answered.now) size in
        IfOk result (λ line. string_bytes line ≡ object_line fields) }
{
    let mut writer = begin_line(alloc)?;
    put_answer(alloc, names, answered, &mut writer)?;
    end_line(writer)
}

fn put_answer<A: AllocHandle>(
    alloc: A,
    names: &Names<'_, A>,
    answered: &Answered<'_, A>,
    writer: &mut Writer<A>,
) -> Result<(), AllocError>
    ensures { let size = sizes_told (property_of answered.now.assertion.now.property)
        answered.now.size in
        let fields = answer_fields (names_of names.now) (answered_of answered.now) size in
        Puts result writer.old writer.new fields }
{
    put_head(alloc, names, answered, writer)?;
    put_found(alloc, names, answered.found, writer)?;
    put_account(alloc, names, answered.account, writer)?;
    put_size(&answered.assertion.property, answered.size, writer)?;
    put_text("words", answered.words, writer)
}

fn put_head<A: AllocHandle>(
    alloc: A,
    names: &Names<'_, A>,
    answered: &Answered<'_, A>,
    writer: &mut Writer<A>,
) -> Result<(), AllocError>
    ensures { let fields = head_fields (names_of names.now) (answered_of answered.now) in
        Puts result writer.old writer.new fields }
{
    let mut assertion = String::new(alloc);
    push_assertion(alloc, names, answered.assertion, &mut assertion)?;
    put_number("number", answered.number as u64, writer)?;
    put_placed(answered.place, writer)?;
    put_text("assertion", assertion.as_str(), writer)?;
    put_text(
        "answer",
        answer_word(answered.found, answered.assertion.negated),
        writer,
    )
}

// Where it stands, if that is known.
fn put_placed<A: AllocHandle>(
    place: Option<Place>,
    writer: &mut Writer<A>,
) -> Result<(), AllocError>
    ensures { Puts result writer.old writer.new (placed_fields (option_map place_of place)) }
{
    match place {
        Some(place) => put_place(place, writer),
        None => Ok(()),
    }
}

// The answer in a word.
fn answer_word<A: AllocHandle>(found: &Outcome<A>, negated: bool) -> &'static str
    ensures { result.now ≡ outcome_word (as_written negated (outcome_of found.now)) }
{
    match found {
        Outcome::Unknown(_) => "unknown",
        Outcome::Holds => if negated { "fails" } else { "holds" },
        Outcome::Fails(_) => if negated { "holds" } else { "fails" },
        Outcome::Denied => if negated { "holds" } else { "fails" },
    }
}
