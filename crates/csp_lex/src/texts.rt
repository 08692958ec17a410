//! Which bytes are a text.

ghost use Rattle.std.specs.Prelude.{◌≡◌, ◌≤◌, IfOk, IfErr, length};
ghost use Rattle.theory_text.specs.Token.{longest_text};
ghost use Rattle.std.specs.Str.{IsUtf8, chars};
ghost use Rattle.theory_text.specs.Place.{place_after, first_place};
ghost use Rattle.csp_lex.specs.Places.{place_of};
ghost use Rattle.csp_lex.specs.Refusals.{IsRefusalOf};

use crate::classes::{Class, behind_run};
use crate::cursors::Cursor;
use crate::places::Place;
use crate::refusals::{Refused, TextFault};
use std::str;

/// The most bytes that a text may have.
pub const LONGEST_TEXT: usize = 65_536;

/// The place behind a text's last character.
fn place_behind(text: &[u8]) -> Place
    requires utf8 { IsUtf8 text.now }
    requires short { length text.now ≤ longest_text }
    ensures { place_of result ≡ place_after first_place (chars text.now) }
{
    let text = str::from_utf8(text).unwrap();
    behind_run(Cursor::at_start(text), Class::Any).place
}

/// The text that the bytes are.
pub(crate) fn text_of(bytes: &[u8]) -> Result<&str, Refused>
    ensures text { IfOk result (λ text. text.now ≡ bytes.now) }
    ensures short { IfOk result (λ text. length bytes.now ≤ longest_text) }
    ensures refused { IfErr result (λ refused. IsRefusalOf bytes.now refused) }
{
    if bytes.len() > LONGEST_TEXT {
        return Err(Refused::Text {
            fault: TextFault::LongText,
            place: Place::first(),
        });
    }
    match str::from_utf8(bytes) {
        Ok(text) => Ok(text),
        Err(error) => {
            let place = place_behind(&bytes[..error.valid_up_to()]);
            Err(Refused::Text {
                fault: TextFault::NotUtf8,
                place,
            })
        }
    }
}
