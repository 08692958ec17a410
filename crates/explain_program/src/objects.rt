//! Answered assertions as objects.

ghost use Rattle.std.specs.Prelude.{◌≡◌, IfOk, map, option_map, slice_get};
ghost use Rattle.std.specs.String.{string_bytes};
ghost use Rattle.theory_syntax.specs.Process.{Property};
ghost use Rattle.theory_objects.specs.Answers.{answer_fields};
ghost use Rattle.theory_objects.specs.Fields.{object_line};
ghost use Rattle.csp_lex.specs.Places.{place_of};
ghost use Rattle.csp_term.specs.Script.{assertion_of};
ghost use Rattle.verdict.specs.Outcome.{outcome_of};
ghost use Rattle.explanation.specs.Accounts.{account_of};
ghost use Rattle.explanation_objects.specs.Answers.{sizes_told};
ghost use Rattle.named_scripts.specs.Naming.{labels_of};
ghost use Rattle.explain_program.specs.Telling.{answered, place_at, sizes_asked, sizes_of};

use crate::search_size::SearchSize;
use crate::searching::Answer;
use csp_lex::Place;
use csp_term::AllocHandle;
use explain_settings::Settings;
use explanation::{Account, Question};
use explanation_objects::{Answered, Size, answer_line};
use named_scripts::NamedScript;
use std::alloc::AllocError;

/// What is told of an answered assertion.
#[derive(Clone, Copy, Drop)]
pub(crate) struct Told<'t, A: AllocHandle> {
    /// The account of what is found.
    pub(crate) account: &'t Account<A>,
    /// What is told in words.
    pub(crate) words: &'t str,
}

/// The line of the object of the assertion with this answer, of which this is told.
pub(crate) fn object_line<A: AllocHandle>(
    alloc: A,
    settings: &Settings<'_>,
    named: &NamedScript<'_, A>,
    question: &Question<'_, A>,
    answer: &Answer<A>,
    told: &Told<'_, A>,
) -> Result<String<A>, AllocError>
    ensures { let labels = labels_of named.now in
        let written = assertion_of question.now.written.now in
        let found = outcome_of answer.now.found in
        let account = account_of told.now.account.now in
        let it = answered labels question.now.number written found account told.now.words.now in
        let sizes = sizes_asked settings.now.count written.property answer.now.size in
        let fields = answer_fields labels.names it sizes in
        IfOk result (λ line. string_bytes line ≡ object_line fields) }
{
    let answered = Answered {
        number: question.number,
        place: place_at(&named.places, question.number),
        assertion: question.written,
        found: &answer.found,
        account: told.account,
        size: size_told(settings.count, answer.size),
        words: told.words,
    };
    answer_line(alloc, &named.names, &answered)
}

// Where the assertion of the number begins, if it is one of the text's.
fn place_at(places: &[Place], number: usize) -> Option<Place>
    ensures { option_map place_of result ≡ place_at (map place_of places.now) number }
{
    if number == 0 {
        return None;
    }
    place_of_index(places, number - 1)
}

fn place_of_index(places: &[Place], index: usize) -> Option<Place>
    ensures { result ≡ slice_get places.now index }
{
    places.get(index).copied()
}

// How large the search was, and what it took, where it is asked for.
fn size_told(count: bool, size: Option<SearchSize>) -> Option<Size>
    ensures { (property : Property) → sizes_told property result ≡ sizes_asked count property size }
{
    if count { size_of(size) } else { None }
}

fn size_of(size: Option<SearchSize>) -> Option<Size>
    ensures { (property : Property) → sizes_told property result ≡ sizes_of property size }
{
    match size {
        Some(SearchSize { pairs, nodes, cost }) => Some(Size { pairs, nodes, cost }),
        None => None,
    }
}
