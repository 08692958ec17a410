//! Numbers.

ghost use Rattle.std.specs.Prelude.{◌≡◌, ◌<◌, ◌≤◌, Some, IfSome, IfNone, MatchOption, IsTrue};
ghost use Rattle.std.specs.Char.{is_ascii_digit};
ghost use Rattle.std.specs.Str.{all_ascii_digits};
ghost use Rattle.theory_text.specs.Fronts.{StartsWith};
ghost use Rattle.theory_text.specs.Token.{digits_value, greatest_number, IsRefusedHere, LargeNumber};
ghost use Rattle.csp_lex.specs.Cursors.{left_of};
ghost use Rattle.csp_lex.specs.Pieces.{ReadsPiece};

use crate::classes::{Class, behind_run};
use crate::cursors::Cursor;
use crate::kinds::TokenKind;

/// The greatest number that a script may have.
pub const GREATEST_NUMBER: u32 = 2_147_483_647;

/// The number that the digits are, if a script may have it.
fn value_of(digits: &[u8]) -> Option<u32>
    requires { IsTrue (all_ascii_digits digits.now) }
    ensures { MatchOption result
        (greatest_number < digits_value 0 digits.now)
        (λ number. (number ≡ digits_value 0 digits.now) × (number ≤ greatest_number)) }
{
    let mut value = 0u64;
    for digit in digits {
        value = value * 10 + u64::from(*digit - b'0');
        if value > u64::from(GREATEST_NUMBER) {
            return None;
        }
    }
    Some(value as u32)
}

/// The number at a cursor and the cursor behind it, unless the number is too large.
pub(crate) fn read_number<'a>(cursor: Cursor<'a>) -> Option<(TokenKind, Cursor<'a>)>
    requires { StartsWith is_ascii_digit (left_of cursor) }
    ensures number { IfSome result (λ r. ReadsPiece cursor.entry (Some r.0) r.1) }
    ensures large { IfNone result (IsRefusedHere (left_of cursor.entry) LargeNumber) }
{
    let end = behind_run(cursor, Class::Digit);
    let number = value_of(cursor.text_to(end).as_bytes())?;
    Some((TokenKind::Number(number), end))
}
