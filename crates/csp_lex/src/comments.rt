//! Comments over several lines.

ghost use Rattle.std.specs.Prelude.{IfSome, IfNone, [], ◌∷◌, nat_eq};
ghost use Rattle.theory_text.specs.Fronts.{StopsAt};
ghost use Rattle.theory_text.specs.Token.{HasNoMark};
ghost use Rattle.csp_lex.specs.Cursors.{left_of, Passes, EndsComment};

use crate::cursors::Cursor;

/// The cursor behind a `}` that stands next.
fn behind_brace<'a>(cursor: Cursor<'a>) -> Option<Cursor<'a>>
    ensures found { IfSome result (λ end. Passes cursor.entry (125 ∷ []) end) }
    ensures none { IfNone result (StopsAt (λ c. nat_eq c 125) (left_of cursor.entry)) }
{
    let (character, behind) = cursor.next()?;
    if character == '}' { Some(behind) } else { None }
}

/// The cursor behind the next `-}`, if there is one.
pub(crate) fn behind_comment<'a>(cursor: Cursor<'a>) -> Option<Cursor<'a>>
    ensures found { IfSome result (λ end. EndsComment cursor.entry end) }
    ensures none { IfNone result (HasNoMark (left_of cursor.entry)) }
{
    let mut here = cursor;
    while let Some((character, behind)) = here.next() {
        if character == '-' {
            if let Some(end) = behind_brace(behind) {
                return Some(end);
            }
        }
        here = behind;
    }
    None
}
