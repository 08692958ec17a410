//! What may be so around a place.

ghost use Rattle.std.specs.Prelude.{◌≡◌};
ghost use Rattle.diagnostics.specs.Conditions.{is_function, is_keyword, is_name, is_number, is_written, meets};

use crate::places::Surroundings;
use csp_lex::{Keyword, Token, TokenKind};

/// Something that may be so around a place.
#[derive(Clone, Copy)]
pub enum Condition {
    /// The last `=`, `[T=`, `[F=` or keyword of a declaration before the place is written so.
    Opening(&'static str),
    /// The second token before that one is written so.
    Declaring(&'static str),
    /// The innermost bracket that is open at the place is written so.
    Open(&'static str),
    /// The token before that bracket is written so.
    Outside(&'static str),
    /// No bracket is open at the place.
    NoneOpen,
    /// The token before the one before the place is written so.
    Earlier(&'static str),
    /// The token before the place is written so.
    Before(&'static str),
    /// The token at the place is written so.
    Here(&'static str),
    /// The token behind the one at the place is written so.
    Behind(&'static str),
    /// The token before the place is a name.
    BeforeName,
    /// The token before the place is a number.
    BeforeNumber,
    /// The token before the place is a keyword.
    BeforeKeyword,
    /// The token before the place is a keyword that is called in an expression, as `head`.
    BeforeFunction,
    /// The token at the place is a name.
    HereName,
    /// The token at the place is a number.
    HereNumber,
    /// The token at the place is a keyword.
    HereKeyword,
}

/// Whether the condition is met.
pub(crate) fn meets(around: &Surroundings<'_>, condition: Condition) -> bool
    ensures { result ≡ meets around.now condition }
{
    match condition {
        Condition::Opening(text) => is_written(around.opening, text),
        Condition::Declaring(text) => is_written(around.declaring, text),
        Condition::Open(text) => is_written(around.bracket, text),
        Condition::Outside(text) => is_written(around.outside, text),
        Condition::NoneOpen => around.bracket.is_none(),
        Condition::Earlier(text) => is_written(around.earlier, text),
        Condition::Before(text) => is_written(around.before, text),
        Condition::Here(text) => is_written(around.here, text),
        Condition::Behind(text) => is_written(around.behind, text),
        Condition::BeforeName => is_name(around.before),
        Condition::BeforeNumber => is_number(around.before),
        Condition::BeforeKeyword => is_keyword(around.before),
        Condition::BeforeFunction => is_function(around.before),
        Condition::HereName => is_name(around.here),
        Condition::HereNumber => is_number(around.here),
        Condition::HereKeyword => is_keyword(around.here),
    }
}

/// Whether there is a token, which is written so.
fn is_written(token: Option<Token<'_>>, text: &str) -> bool
    ensures { result ≡ is_written token.entry text.now }
{
    match token {
        Some(token) => token.text == text,
        None => false,
    }
}

/// Whether there is a token, which is a name.
fn is_name(token: Option<Token<'_>>) -> bool
    ensures { result ≡ is_name token.entry }
{
    match token {
        Some(token) => token.kind == TokenKind::Name,
        None => false,
    }
}

/// Whether there is a token, which is a number.
fn is_number(token: Option<Token<'_>>) -> bool
    ensures { result ≡ is_number token.entry }
{
    match token {
        Some(
            Token {
                kind: TokenKind::Number(_),
                ..
            },
        ) => true,
        _ => false,
    }
}

/// Whether there is a token, which is a keyword.
fn is_keyword(token: Option<Token<'_>>) -> bool
    ensures { result ≡ is_keyword token.entry }
{
    match token {
        Some(
            Token {
                kind: TokenKind::Keyword(_),
                ..
            },
        ) => true,
        _ => false,
    }
}

/// Whether there is a token, which is a keyword that is called in an expression.
fn is_function(token: Option<Token<'_>>) -> bool
    ensures { result ≡ is_function token.entry }
{
    match token {
        Some(
            Token {
                kind: TokenKind::Keyword(
                    Keyword::Head
                    | Keyword::Tail
                    | Keyword::Null
                    | Keyword::Elem
                    | Keyword::Member
                    | Keyword::Union
                    | Keyword::Inter
                    | Keyword::Diff
                    | Keyword::Card,
                ),
                ..
            },
        ) => true,
        _ => false,
    }
}
