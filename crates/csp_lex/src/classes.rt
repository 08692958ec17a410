//! Classes of characters, and runs of them.

ghost use Rattle.std.specs.Prelude.{◌≡◌};
ghost use Rattle.csp_lex.specs.Classes.{class_test};
ghost use Rattle.csp_lex.specs.Cursors.{RunsOver};

use crate::cursors::Cursor;

/// A class of characters that go on as what has begun.
#[derive(Clone, Copy)]
pub(crate) enum Class {
    /// What may go on in a name.
    Continuing,
    /// The `'` that a name may end in.
    Prime,
    /// The digits 0 to 9.
    Digit,
    /// All but the end of a line.
    WithinLine,
    /// Every character.
    Any,
}

impl Class {
    pub(crate) fn contains(self, character: char) -> bool
        ensures { result ≡ class_test self character }
    {
        match self {
            Class::Continuing => unicode_ident::is_xid_continue(character),
            Class::Prime => character == '\'',
            Class::Digit => character.is_ascii_digit(),
            Class::WithinLine => character != '\n',
            Class::Any => true,
        }
    }
}

/// The cursor behind all the characters of a class that stand next.
pub(crate) fn behind_run<'a>(cursor: Cursor<'a>, class: Class) -> Cursor<'a>
    ensures { RunsOver (class_test class) cursor.entry result }
{
    let mut end = cursor;
    while let Some((character, behind)) = end.next() {
        if !class.contains(character) {
            break;
        }
        end = behind;
    }
    end
}
