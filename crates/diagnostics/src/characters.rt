//! What may be meant by a character that begins no token.

ghost use Rattle.std.specs.Prelude.{◌≡◌, option_map};
ghost use Rattle.diagnostics.specs.Characters.{character_advice};

use crate::texts::line_at;
use csp_lex::Place;

/// A character, and what may be meant by it.
#[derive(Clone, Copy)]
pub struct CharacterAdvice {
    /// The character.
    pub character: char,
    /// What may be meant by it.
    pub text: &'static str,
}

/// What may be meant by characters that begin no token.
pub const CHARACTERS: &[CharacterAdvice] = &[
    CharacterAdvice {
        character: '\u{feff}',
        text: "the file begins with a byte order mark, which is no part of a script: save it without one",
    },
    CharacterAdvice {
        character: '"',
        text: "there are no texts and no `include`: put the text of the other file here",
    },
    CharacterAdvice {
        character: '\'',
        text: "there are no characters as values: declare them, as `datatype Letter = X | Y`",
    },
    CharacterAdvice {
        character: '$',
        text: "there is no `$`: write `|~| x:S @ c!x -> P` for `c$x:S -> P`",
    },
    CharacterAdvice {
        character: '_',
        text: "no name begins with `_`: give an input that is not used a name, as `c?x`",
    },
    CharacterAdvice {
        character: '/',
        text: "there is no `/`, and no `/+`: `x / y` is the `z` of `[] z:S @ z*y <= x and x < (z+1)*y & P`; a comment begins with `--`",
    },
    CharacterAdvice {
        character: '~',
        text: "internal choice is written `|~|`, and negation `not`",
    },
    CharacterAdvice {
        character: '\u{2192}',
        text: "the arrow is written `->`",
    },
    CharacterAdvice {
        character: '\u{25a1}',
        text: "external choice is written `[]`",
    },
    CharacterAdvice {
        character: '\u{2293}',
        text: "internal choice is written `|~|`",
    },
    CharacterAdvice {
        character: '\u{2291}',
        text: "refinement is written `[T=` or `[F=`",
    },
    CharacterAdvice {
        character: '\u{2013}',
        text: "this is a dash: write `-`, and `--` before a comment",
    },
    CharacterAdvice {
        character: '\u{a0}',
        text: "this is a no-break space: write a space",
    },
];

/// The character at the place, if there is one.
pub(crate) fn character_at(text: &str, place: Place) -> Option<char> {
    let index = place.column.saturating_sub(1) as usize;
    line_at(text, place.line).chars().nth(index)
}

/// What the first row of the table with the character says.
pub(crate) fn character_advice(table: &[CharacterAdvice], character: char) -> Option<&'static str>
    ensures { option_map (λ text. text.now) result ≡ character_advice table.now character }
{
    for advice in table {
        if advice.character == character {
            return Some(advice.text);
        }
    }
    None
}
