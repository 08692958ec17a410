//! Keywords and names.

ghost use Rattle.std.specs.Prelude.{Some};
ghost use Rattle.unicode_ident.specs.Ident.{is_xid_start};
ghost use Rattle.theory_text.specs.Fronts.{StartsWith};
ghost use Rattle.csp_lex.specs.Cursors.{left_of};
ghost use Rattle.csp_lex.specs.Pieces.{ReadsPiece};

use crate::classes::{Class, behind_run};
use crate::cursors::Cursor;
use crate::keywords::Keyword;
use crate::kinds::TokenKind;

/// The keyword or name at a cursor, and the cursor behind it.
pub(crate) fn read_word<'a>(cursor: Cursor<'a>) -> (TokenKind, Cursor<'a>)
    requires { StartsWith is_xid_start (left_of cursor) }
    ensures { ReadsPiece cursor.entry (Some result.0) result.1 }
{
    let end = behind_run(behind_run(cursor, Class::Continuing), Class::Prime);
    match Keyword::from_spelling(cursor.text_to(end)) {
        Some(keyword) => (TokenKind::Keyword(keyword), end),
        None => (TokenKind::Name, end),
    }
}
