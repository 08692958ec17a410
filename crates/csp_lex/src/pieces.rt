//! The pieces of a text: its tokens, and what stands between them.

ghost use Rattle.std.specs.Prelude.{◌≡◌, ◌<◌, ◌||◌, ◌==◌, [], IfOk, IfErr, IfSome, IfNone, length};
ghost use Rattle.theory_text.specs.Fronts.{StartsPlainly};
ghost use Rattle.theory_text.specs.Token.{is_white, IsRefusedHere};
ghost use Rattle.csp_lex.specs.Cursors.{left_of};
ghost use Rattle.csp_lex.specs.Pieces.{ReadsPiece};
ghost use Rattle.csp_lex.specs.Refusals.{fault_of};

use crate::classes::{Class, behind_run};
use crate::comments::behind_comment;
use crate::cursors::Cursor;
use crate::kinds::TokenKind;
use crate::marks::{Mark, read_mark};
use crate::numbers::read_number;
use crate::refusals::TextFault;
use crate::words::read_word;

/// A piece of a text: a token, or white space or a comment, which is none.
#[derive(Clone, Copy)]
pub(crate) struct Piece<'a> {
    pub(crate) kind: Option<TokenKind>,
    /// The cursor behind the piece.
    pub(crate) end: Cursor<'a>,
}

/// Whether a character is white space.
fn is_white(character: char) -> bool
    ensures { result ≡ is_white character }
{
    character == ' ' || character == '\t' || character == '\r' || character == '\n'
}

/// The sign or comment at a cursor.
fn read_marked<'a>(cursor: Cursor<'a>) -> Result<Piece<'a>, TextFault>
    requires some { 0 < length (left_of cursor) }
    requires plain { StartsPlainly (left_of cursor) }
    ensures piece { IfOk result (λ p. ReadsPiece cursor.entry p.kind p.end) }
    ensures refused { IfErr result (λ fault. IsRefusedHere (left_of cursor.entry)
        (fault_of fault)) }
{
    let Some((mark, end)) = read_mark(cursor) else {
        return Err(TextFault::NoToken);
    };
    match mark {
        Mark::Sign(sign) => Ok(Piece {
            kind: Some(TokenKind::Sign(sign)),
            end,
        }),
        Mark::LineComment => {
            Ok(Piece {
                kind: None,
                end: behind_run(end, Class::WithinLine),
            })
        }
        Mark::BlockComment => {
            let Some(end) = behind_comment(end) else {
                return Err(TextFault::OpenComment);
            };
            Ok(Piece { kind: None, end })
        }
    }
}

/// The piece at a cursor, or none at the end of the text.
pub(crate) fn read_piece<'a>(cursor: Cursor<'a>) -> Result<Option<Piece<'a>>, TextFault>
    ensures end { IfOk result (λ o. IfNone o (left_of cursor.entry ≡ [])) }
    ensures piece { IfOk result (λ o. IfSome o (λ p. ReadsPiece cursor.entry p.kind p.end)) }
    ensures refused { IfErr result (λ fault. IsRefusedHere (left_of cursor.entry)
        (fault_of fault)) }
{
    let Some((first, behind)) = cursor.next() else {
        return Ok(None);
    };
    if unicode_ident::is_xid_start(first) {
        let (kind, end) = read_word(cursor);
        return Ok(Some(Piece {
            kind: Some(kind),
            end,
        }));
    }
    if first.is_ascii_digit() {
        let Some((kind, end)) = read_number(cursor) else {
            return Err(TextFault::LargeNumber);
        };
        return Ok(Some(Piece {
            kind: Some(kind),
            end,
        }));
    }
    if is_white(first) {
        return Ok(Some(Piece {
            kind: None,
            end: behind,
        }));
    }
    let piece = read_marked(cursor)?;
    Ok(Some(piece))
}
