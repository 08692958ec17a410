//! Brackets that are not closed.

ghost use Rattle.std.specs.Prelude.{◌≡◌, [], IfOk};
ghost use Rattle.diagnostics.specs.Brackets.{closes, open_behind, open_bracket, opens};

use csp_lex::{Sign, Token, TokenKind};
use std::alloc::{AllocError, Allocator};

/// The innermost of the round and curly brackets that are open behind the tokens, if one is.
pub(crate) fn open_bracket<'t, A: Allocator>(
    alloc: A,
    tokens: &[Token<'t>],
) -> Result<Option<Token<'t>>, AllocError>
    ensures { IfOk result (λ bracket. bracket ≡ open_bracket tokens.now) }
{
    let brackets = open_brackets(alloc, tokens)?;
    Ok(brackets.last().copied())
}

// The round and curly brackets that are open behind the tokens, the innermost last.
fn open_brackets<'t, A: Allocator>(
    alloc: A,
    tokens: &[Token<'t>],
) -> Result<Vec<Token<'t>, A>, AllocError>
    ensures { IfOk result (λ brackets. brackets.items ≡ open_behind [] tokens.now) }
{
    let mut open = Vec::new(alloc);
    for token in tokens {
        if opens(token.kind) {
            open.push(*token)?;
        } else if closes(token.kind) {
            let _ = open.pop();
        }
    }
    Ok(open)
}

/// Whether a token of this kind opens a round or curly bracket.
fn opens(kind: TokenKind) -> bool
    ensures { result ≡ opens kind }
{
    match kind {
        TokenKind::Sign(Sign::OpenRound | Sign::OpenBrace | Sign::OpenProductions) => true,
        _ => false,
    }
}

/// Whether a token of this kind closes a round or curly bracket.
fn closes(kind: TokenKind) -> bool
    ensures { result ≡ closes kind }
{
    match kind {
        TokenKind::Sign(Sign::CloseRound | Sign::CloseBrace | Sign::CloseProductions) => true,
        _ => false,
    }
}
