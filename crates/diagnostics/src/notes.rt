//! What is told of the text around a refusal: an open bracket, a declared name.

ghost use Rattle.std.specs.Prelude.{◌≡◌, IfOk};
ghost use Rattle.std.specs.String.{string_bytes};
ghost use Rattle.diagnostics.specs.Notes.{below_note, bracket_note, declared_note, end_note, parts_text, value_note};

use crate::declared_names::{Class, DeclaredName, declared_as};
use crate::nearest_names::nearest;
use csp_lex::{Place, Token};
use csp_names::KindFault;
use csp_parse::GrammarFault;
use std::alloc::{AllocError, Allocator};

/// A line on the bracket that is open, if one is.
pub(crate) fn bracket_note<A: Allocator>(
    alloc: A,
    bracket: Option<Token<'_>>,
) -> Result<String<A>, AllocError>
    ensures { IfOk result (λ note. string_bytes note ≡ bracket_note bracket.entry) }
{
    match bracket {
        Some(Token { text, place, .. }) => {
            format!(in alloc; "note: the `{text}` at {place} is open here\n")
        }
        None => Ok(String::new(alloc)),
    }
}

/// A line on the last token, where the text ends too early.
pub(crate) fn end_note<A: Allocator>(
    alloc: A,
    fault: GrammarFault,
    last: Option<Token<'_>>,
) -> Result<String<A>, AllocError>
    ensures { IfOk result (λ note. string_bytes note ≡ end_note fault last.entry) }
{
    match (fault, last) {
        (GrammarFault::UnexpectedEnd, Some(Token { text, place, .. })) => {
            format!(in alloc; "note: the last token is the `{text}` at {place}\n")
        }
        _ => Ok(String::new(alloc)),
    }
}

/// A line on a value that stands where the process of an equation has to stand.
pub(crate) fn value_note<A: Allocator>(alloc: A, place: Place) -> Result<String<A>, AllocError>
    ensures { IfOk result (λ note. string_bytes note ≡ value_note place) }
{
    format!(in alloc; "note: at {place} a value stands in place of the process of an equation\n")
}

/// A line on what is declared of the word, or on the declared name that is spelled most like it.
pub(crate) fn name_note<A: Allocator + Copy>(
    alloc: A,
    fault: KindFault,
    word: &str,
    names: &[DeclaredName<'_>],
) -> Result<String<A>, AllocError> {
    match (fault, declared_as(names, word)) {
        (KindFault::UnknownName, Some(declared)) => below_note(alloc, declared),
        (KindFault::UnknownName, None) => nearest_note(alloc, word, names),
        (KindFault::DeclaredTwice | KindFault::WrongKind | KindFault::WrongCount, Some(declared)) =>
            declared_note(alloc, declared),
        _ => Ok(String::new(alloc)),
    }
}

// A line on a name that is declared below.
fn below_note<A: Allocator>(alloc: A, declared: DeclaredName<'_>) -> Result<String<A>, AllocError>
    ensures { IfOk result (λ note. string_bytes note ≡ below_note declared.entry) }
{
    let (text, place) = (declared.name.text, declared.name.place);
    format!(in alloc;
        "note: `{text}` is declared at {place}, and a set uses only names that are declared above it\n"
    )
}

// A line on the declared name that is spelled most like the word, if one is spelled much like it.
fn nearest_note<A: Allocator + Copy>(
    alloc: A,
    word: &str,
    names: &[DeclaredName<'_>],
) -> Result<String<A>, AllocError> {
    let mut spellings = Vec::new(alloc);
    for declared in names {
        spellings.push(declared.name.text)?;
    }
    let Some(spelling) = nearest(alloc, word, &spellings)? else {
        return Ok(String::new(alloc));
    };
    match declared_as(names, spelling) {
        Some(declared) => declared_note(alloc, declared),
        None => Ok(String::new(alloc)),
    }
}

// A line on how a name is declared.
fn declared_note<A: Allocator + Copy>(
    alloc: A,
    declared: DeclaredName<'_>,
) -> Result<String<A>, AllocError>
    ensures { IfOk result (λ note. string_bytes note ≡ declared_note declared.entry) }
{
    let (text, place) = (declared.name.text, declared.name.place);
    let word = declared.class.word();
    let parts = parts_text(alloc, declared.class, declared.parts)?;
    format!(in alloc; "note: `{text}` is the {word} declared at {place}{parts}\n")
}

// How many parameters or fields there are, where that is of the class.
fn parts_text<A: Allocator>(alloc: A, class: Class, parts: usize) -> Result<String<A>, AllocError>
    ensures { IfOk result (λ text. string_bytes text ≡ parts_text class parts) }
{
    match class {
        Class::Datatype | Class::Nametype => Ok(String::new(alloc)),
        Class::Constructor | Class::Channel if parts == 1 => format!(in alloc; ", with 1 field"),
        Class::Constructor | Class::Channel => format!(in alloc; ", with {parts} fields"),
        Class::Equation if parts == 1 => format!(in alloc; ", with 1 parameter"),
        Class::Equation => format!(in alloc; ", with {parts} parameters"),
    }
}
