//! The tokens around a place.

ghost use Rattle.std.specs.Prelude.{◌≡◌, ◌≤◌, IfOk, length, slice_get};
ghost use Rattle.diagnostics.specs.Places.{front_length, is_opening, last_opening, stands_before};
ghost use Rattle.diagnostics.specs.Surroundings.{before_token, surroundings_of, token_before};

use crate::brackets::open_bracket;
use csp_lex::{Keyword, Place, Sign, Token, TokenKind};
use std::alloc::{AllocError, Allocator};

/// The tokens around a place, as far as there are some.
#[derive(Clone, Copy)]
pub struct Surroundings<'t> {
    /// The last token before the place that is `=`, `[T=`, `[F=` or the keyword of a declaration.
    pub opening: Option<Token<'t>>,
    /// The second token before that one, which is the keyword of a datatype or nametype if it is the `=` of one.
    pub declaring: Option<Token<'t>>,
    /// The innermost round or curly bracket that is open at the place.
    pub bracket: Option<Token<'t>>,
    /// The token before that bracket.
    pub outside: Option<Token<'t>>,
    /// The token before the one before the place.
    pub earlier: Option<Token<'t>>,
    /// The token before the place.
    pub before: Option<Token<'t>>,
    /// The token at the place.
    pub here: Option<Token<'t>>,
    /// The token behind the one at the place.
    pub behind: Option<Token<'t>>,
}

/// The tokens around the place. It is an error where memory is refused.
pub fn surroundings_at<'t, A: Allocator>(
    alloc: A,
    tokens: &[Token<'t>],
    place: Place,
) -> Result<Surroundings<'t>, AllocError>
    ensures { IfOk result (λ around. around ≡ surroundings_of tokens.now place) }
{
    let index = front_length(tokens, place);
    let front = &tokens[..index];
    let opening = last_opening(front);
    let bracket = open_bracket(alloc, front)?;
    Ok(Surroundings {
        opening,
        declaring: before_token(tokens, opening, 2),
        bracket,
        outside: before_token(tokens, bracket, 1),
        earlier: token_before(tokens, index, 2),
        before: token_before(tokens, index, 1),
        here: token_at(tokens, index),
        behind: token_at(tokens, index + 1),
    })
}

// The token at the index, if there is one.
fn token_at<'t>(tokens: &[Token<'t>], index: usize) -> Option<Token<'t>>
    ensures { result ≡ slice_get tokens.now index }
{
    tokens.get(index).copied()
}

// The token so many before the one at the index, if there is one.
fn token_before<'t>(tokens: &[Token<'t>], index: usize, count: usize) -> Option<Token<'t>>
    ensures { result ≡ token_before tokens.now index count }
{
    let at = index.checked_sub(count)?;
    token_at(tokens, at)
}

// The token so many before that token, if there is one.
fn before_token<'t>(
    tokens: &[Token<'t>],
    token: Option<Token<'_>>,
    count: usize,
) -> Option<Token<'t>>
    ensures { result ≡ before_token tokens.now token.entry count }
{
    match token {
        Some(token) => token_before(tokens, front_length(tokens, token.place), count),
        None => None,
    }
}

/// How many tokens stand before the place.
pub(crate) fn front_length(tokens: &[Token<'_>], place: Place) -> usize
    ensures value { result ≡ front_length tokens.now place }
    ensures within { result ≤ length tokens.now }
{
    tokens
        .iter()
        .position(|token| !stands_before(token.place, place))
        .unwrap_or(tokens.len())
}

/// Whether one place stands before another.
pub(crate) fn stands_before(first: Place, second: Place) -> bool
    ensures { result ≡ stands_before first second }
{
    first.line < second.line || (first.line == second.line && first.column < second.column)
}

// The last of the tokens that is `=`, `[T=`, `[F=` or the keyword of a declaration.
fn last_opening<'t>(tokens: &[Token<'t>]) -> Option<Token<'t>>
    ensures { result ≡ last_opening tokens.now }
{
    tokens
        .iter()
        .rev()
        .copied()
        .find(|token| is_opening(token.kind))
}

/// Whether a token of this kind is `=`, `[T=`, `[F=` or the keyword of a declaration.
fn is_opening(kind: TokenKind) -> bool
    ensures { result ≡ is_opening kind }
{
    match kind {
        TokenKind::Sign(Sign::Equals | Sign::Traces | Sign::Failures)
        | TokenKind::Keyword(
            Keyword::Datatype | Keyword::Nametype | Keyword::Channel | Keyword::Assert,
        ) => true,
        _ => false,
    }
}
