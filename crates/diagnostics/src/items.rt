//! The tokens of an equation or assertion, or of a set, that is refused for its kinds.

use crate::places::{front_length, stands_before};
use csp_lex::{Place, Sign, Token, TokenKind};
use csp_parse::{Declaration, Raw};
use std::alloc::Allocator;

/// The tokens from the place to the next declaration, if an equation, an assertion or a set in curly brackets begins
/// there.
pub(crate) fn item_tokens<'l, 't, A: Allocator>(
    raw: &Raw<'t, A>,
    tokens: &'l [Token<'t>],
    place: Place,
) -> Option<&'l [Token<'t>]> {
    let first = front_length(tokens, place);
    if !begins_item(raw, place) && tokens.get(first)?.kind != TokenKind::Sign(Sign::OpenBrace) {
        return None;
    }
    match next_place(raw, place) {
        Some(next) => tokens.get(first..front_length(tokens, next)),
        None => tokens.get(first..),
    }
}

/// Whether an equation or assertion begins at the place.
fn begins_item<A: Allocator>(raw: &Raw<'_, A>, place: Place) -> bool {
    raw.declarations.iter().any(|declaration| {
        match declaration {
            Declaration::Equation { name, .. } => name.place == place,
            Declaration::Assertion { place: first, .. } => *first == place,
            _ => false,
        }
    })
}

/// The place of the first name, or of an assertion's first token, of the first declaration behind the place.
fn next_place<A: Allocator>(raw: &Raw<'_, A>, place: Place) -> Option<Place> {
    for declaration in &raw.declarations {
        if let Some(found) = place_of(declaration)
            && stands_before(place, found)
        {
            return Some(found);
        }
    }
    None
}

/// The place of the first name of the declaration, or of an assertion's first token.
fn place_of<A: Allocator>(declaration: &Declaration<'_, A>) -> Option<Place> {
    match declaration {
        Declaration::Datatype { name, .. }
        | Declaration::Nametype { name, .. }
        | Declaration::Equation { name, .. } => Some(name.place),
        Declaration::Channels { names, .. } => Some(names.first()?.place),
        Declaration::Assertion { place, .. } => Some(*place),
    }
}
