//! A text divided into its tokens.

ghost use Rattle.std.specs.Prelude.{◌≤◌, IfOk, IfErr, length, map};
ghost use Rattle.theory_text.specs.Spans.{RiseBetween, AreInRange};
ghost use Rattle.theory_text.specs.Token.{AreTokens, longest_text};
ghost use Rattle.csp_lex.specs.Places.{place_of};
ghost use Rattle.csp_lex.specs.Refusals.{IsRefusalOf};
ghost use Rattle.csp_lex.specs.Tokens.{placed_token, AreSlices};

use crate::cursors::Cursor;
use crate::kinds::{Token, TokenList};
use crate::pieces::{Piece, read_piece};
use crate::refusals::Refused;
use std::alloc::Allocator;

/// The tokens of a text, piece by piece.
pub(crate) fn divide<'a, A: Allocator>(alloc: A, text: &'a str) -> Result<TokenList<'a, A>, Refused>
    requires { length text.now ≤ longest_text }
    ensures tokens { IfOk result (λ list. AreTokens text.now (map placed_token list.tokens.items)
        (place_of list.end)) }
    ensures slices { IfOk result (λ list. AreSlices text.now list.tokens.items) }
    ensures spans { IfOk result (λ list. RiseBetween 0 (length text.now)
        (map placed_token list.tokens.items)) }
    ensures numbers { IfOk result (λ list. AreInRange (map placed_token list.tokens.items)) }
    ensures refused { IfErr result (λ refused. IsRefusalOf text.now refused) }
{
    let mut tokens = Vec::new(alloc);
    let mut cursor = Cursor::at_start(text);
    loop {
        match read_piece(cursor) {
            Err(fault) => return Err(Refused::Text {
                fault,
                place: cursor.place,
            }),
            Ok(None) => return Ok(TokenList {
                tokens,
                end: cursor.place,
            }),
            Ok(Some(Piece { kind, end })) => {
                if let Some(kind) = kind {
                    tokens.push(Token {
                        kind,
                        text: cursor.text_to(end),
                        place: cursor.place,
                        from: cursor.offset,
                        to: end.offset,
                    })?;
                }
                cursor = end;
            }
        }
    }
}
