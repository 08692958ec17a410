//! What may be meant at a refusal.

use crate::advice_table::advice_at;
use crate::characters::{CHARACTERS, character_advice, character_at};
use crate::clashes::{clash_note, first_clash};
use crate::declared_names::declared_names;
use crate::excerpts::excerpt;
use crate::faults::{Fault, Refusal};
use crate::grammar_tables::{LOOK_ABOVE, LOOK_BACK, NO_DECLARATION};
use crate::items::item_tokens;
use crate::notes::{bracket_note, end_note, name_note, value_note};
use crate::places::{Surroundings, surroundings_at};
use crate::texts::readable;
use crate::value_bodies::{ValueBody, value_body};
use csp_lex::{Place, TextFault, Token, TokenList, tokens};
use csp_names::KindFault;
use csp_parse::{GrammarFault, Raw, parse};
use std::alloc::{AllocError, Allocator};

const OTHER_CHARACTER: &str = "leave it out, or write it within a comment";

const OPEN_COMMENT: &str =
    "a comment `{-` goes to the first `-}` behind it; a set of a number below zero has a space, as `{ -1}`";

const LARGE_NUMBER: &str = "numbers have 32 bits";

const NOT_UTF8: &str = "save the file as UTF-8";

/// The lines that tell what may be meant at the refusal of the text. It is an error where memory is refused.
pub fn help<A: Allocator + Copy>(
    alloc: A,
    text: &[u8],
    refusal: Refusal,
) -> Result<String<A>, AllocError> {
    match refusal.fault {
        Fault::Text(fault) => {
            let character = character_at(readable(text), refusal.place);
            help_line(alloc, text_advice(fault, character))
        }
        Fault::Grammar(fault) => grammar_help(alloc, text, fault, refusal.place),
        Fault::Kinds(fault) => kind_help(alloc, text, fault, refusal.place),
    }
}

/// What may be meant where the text has no tokens.
fn text_advice(fault: TextFault, character: Option<char>) -> Option<&'static str> {
    match fault {
        TextFault::NoToken => Some(no_token_advice(character)),
        TextFault::OpenComment => Some(OPEN_COMMENT),
        TextFault::LargeNumber => Some(LARGE_NUMBER),
        TextFault::NotUtf8 => Some(NOT_UTF8),
        TextFault::LongText => None,
    }
}

/// What may be meant by a character that begins no token.
fn no_token_advice(character: Option<char>) -> &'static str {
    match character {
        Some(character) => character_advice(CHARACTERS, character).unwrap_or(OTHER_CHARACTER),
        None => OTHER_CHARACTER,
    }
}

fn grammar_help<A: Allocator + Copy>(
    alloc: A,
    text: &[u8],
    fault: GrammarFault,
    place: Place,
) -> Result<String<A>, AllocError> {
    let Some(list) = tokens_of(alloc, text)? else {
        return Ok(String::new(alloc));
    };
    let around = surroundings_at(alloc, &list.tokens, place)?;
    let note = end_note(alloc, fault, around.before)?;
    let help = match value_body(alloc, &list, &around, place)? {
        Some(body) => value_help(alloc, text, body)?,
        None => advice_or_back(alloc, Fault::Grammar(fault), &around, place)?,
    };
    format!(in alloc; "{note}{help}")
}

// The place of the value that stands where a process has to stand, the line there, and what may be meant.
fn value_help<A: Allocator + Copy>(
    alloc: A,
    text: &[u8],
    body: ValueBody,
) -> Result<String<A>, AllocError> {
    let note = value_note(alloc, body.place)?;
    let excerpt = excerpt(alloc, readable(text), body.place)?;
    let help = help_line(alloc, Some(body.advice))?;
    format!(in alloc; "{note}{excerpt}{help}")
}

// The advice, or where there is none the bracket that is open, and that something may be missing.
fn advice_or_back<A: Allocator + Copy>(
    alloc: A,
    fault: Fault,
    around: &Surroundings<'_>,
    place: Place,
) -> Result<String<A>, AllocError> {
    match advice_at(fault, around) {
        Some(text) => told(alloc, text, around),
        None => looking_back(alloc, around, place),
    }
}

// The bracket that is open, and that something may be missing.
fn looking_back<A: Allocator + Copy>(
    alloc: A,
    around: &Surroundings<'_>,
    place: Place,
) -> Result<String<A>, AllocError> {
    let note = bracket_note(alloc, around.bracket)?;
    let advice = look_back_advice(around.opening, place);
    format!(in alloc; "{note}help: {advice}\n")
}

/// Where to look back to, by where the declaration before the place has begun.
fn look_back_advice(opening: Option<Token<'_>>, place: Place) -> &'static str {
    match opening {
        Some(token) if token.place.line < place.line => LOOK_ABOVE,
        Some(_) => LOOK_BACK,
        None => NO_DECLARATION,
    }
}

fn kind_help<A: Allocator + Copy>(
    alloc: A,
    text: &[u8],
    fault: KindFault,
    place: Place,
) -> Result<String<A>, AllocError> {
    let Some(list) = tokens_of(alloc, text)? else {
        return Ok(String::new(alloc));
    };
    let around = surroundings_at(alloc, &list.tokens, place)?;
    let note = note_at(alloc, fault, &list, &around)?;
    let help = match advice_at(Fault::Kinds(fault), &around) {
        Some(text) => told(alloc, text, &around)?,
        None => String::new(alloc),
    };
    format!(in alloc; "{note}{help}")
}

/// The tokens of the text, if it has tokens.
fn tokens_of<A: Allocator>(alloc: A, text: &[u8]) -> Result<Option<TokenList<'_, A>>, AllocError> {
    match tokens(alloc, text) {
        Ok(list) => Ok(Some(list)),
        Err(csp_lex::Refused::Text { .. }) => Ok(None),
        Err(csp_lex::Refused::Memory) => Err(AllocError),
    }
}

// What is told of the name that stands there.
fn note_at<'t, A: Allocator + Copy>(
    alloc: A,
    fault: KindFault,
    list: &TokenList<'t, A>,
    around: &Surroundings<'t>,
) -> Result<String<A>, AllocError> {
    let Some(here) = around.here else {
        return Ok(String::new(alloc));
    };
    match parse(alloc, list) {
        Ok(raw) => raw_note(alloc, fault, &raw, &list.tokens, here),
        Err(csp_parse::Refused::Grammar { .. }) => Ok(String::new(alloc)),
        Err(csp_parse::Refused::Memory) => Err(AllocError),
    }
}

// What is told of the kinds that are seen to clash, or else of the name that stands there.
fn raw_note<'t, A: Allocator + Copy>(
    alloc: A,
    fault: KindFault,
    raw: &Raw<'t, A>,
    tokens: &[Token<'t>],
    here: Token<'t>,
) -> Result<String<A>, AllocError> {
    if fault == KindFault::WrongKind
        && let Some(item) = item_tokens(raw, tokens, here.place)
        && let Some(clash) = first_clash(raw, item)
    {
        return clash_note(alloc, clash);
    }
    let names = declared_names(alloc, raw)?;
    name_note(alloc, fault, here.text, &names)
}

/// A line of advice, if there is some.
fn help_line<A: Allocator>(
    alloc: A,
    advice: Option<&'static str>,
) -> Result<String<A>, AllocError> {
    match advice {
        Some(text) => format!(in alloc; "help: {text}\n"),
        None => Ok(String::new(alloc)),
    }
}

/// A line of advice of a table, in which the tokens around the place are put.
fn told<A: Allocator + Copy>(
    alloc: A,
    text: &str,
    around: &Surroundings<'_>,
) -> Result<String<A>, AllocError> {
    let here = spelling(around.here);
    let before = spelling(around.before);
    let text = text.replace(alloc, "{here}", here)?;
    let text = text.replace(alloc, "{before}", before)?;
    format!(in alloc; "help: {text}\n")
}

/// How the token is written, if there is one.
fn spelling<'t>(token: Option<Token<'t>>) -> &'t str {
    match token {
        Some(token) => token.text,
        None => "",
    }
}
