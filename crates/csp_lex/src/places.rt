//! Places in a text.

ghost use Rattle.std.specs.Prelude.{◌≡◌, ◌+◌, ◌^◌, ◌<◌};

use std::fmt;

/// A line and a column of a text, both counted from 1 and in characters.
#[derive(Clone, Copy, Debug, PartialEq, Eq)]
pub struct Place {
    /// The line, from 1.
    pub line: u32,
    /// The column, from 1, in characters.
    pub column: u32,
}

impl Place {
    ghost use Rattle.theory_text.specs.Place.{first_place, next_place};
    ghost use Rattle.csp_lex.specs.Places.{place_of};

    /// The place of a text's first character.
    pub fn first() -> Place
        ensures { place_of result ≡ first_place }
    {
        Place { line: 1, column: 1 }
    }

    /// The place behind a character that stands here.
    pub fn behind(self, character: char) -> Place
        requires line { self.line + 1 < 2 ^ 32 }
        requires column { self.column + 1 < 2 ^ 32 }
        ensures { place_of result ≡ next_place (place_of self) character }
    {
        if character == '\n' {
            Place {
                line: self.line + 1,
                column: 1,
            }
        } else {
            Place {
                line: self.line,
                column: self.column + 1,
            }
        }
    }
}

impl fmt::Display for Place {
    ghost use Rattle.std.specs.Prelude.{◌++◌, Some, codes, decimal};

    ghost output = { λ place. Some (decimal place.line ++ (codes ":" ++ decimal place.column)) };

    fn fmt<W: fmt::Write>(&self, f: &mut fmt::Formatter<W>) -> fmt::Result {
        let line = self.line;
        let column = self.column;
        write!(f, "{line}:{column}")
    }
}
