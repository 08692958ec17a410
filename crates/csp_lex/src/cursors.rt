//! Where a reader of a text stands.

ghost use Rattle.std.specs.Prelude.{◌≡◌, ℕ, List, ◌+◌, ◌≤◌, length, [], ◌∷◌, IfSome, IfNone};
ghost use Rattle.std.specs.Str.{IsUtf8, chars, encode_utf8_all};

use crate::places::Place;

/// Where a reader of a text stands: what is left of the text, and where that begins.
#[derive(Clone, Copy)]
pub(crate) struct Cursor<'a> {
    pub(crate) rest: &'a str,
    pub(crate) offset: usize,
    pub(crate) place: Place,
    ghost utf8: { ∥ IsUtf8 rest.now ∥₁ },
    ghost within: { offset + length rest.now ≤ 65536 },
    ghost few_lines: { place.line ≤ offset + 1 },
    ghost few_columns: { place.column ≤ offset + 1 },
}

impl<'a> Cursor<'a> {
    ghost use Rattle.theory_text.specs.Place.{first_place};
    ghost use Rattle.csp_lex.specs.Places.{place_of};
    ghost use Rattle.csp_lex.specs.Cursors.{Passes};

    /// The cursor at the beginning of a text.
    pub(crate) fn at_start(text: &'a str) -> Cursor<'a>
        requires { length text.now ≤ 65536 }
        ensures rest { result.rest.now ≡ text.now }
        ensures offset { result.offset ≡ 0 }
        ensures place { place_of result.place ≡ first_place }
    {
        Cursor {
            rest: text,
            offset: 0,
            place: Place::first(),
        }
    }

    /// The first character that is left, and the cursor behind it.
    pub(crate) fn next(self) -> Option<(char, Cursor<'a>)>
        ensures end { IfNone result (chars self.entry.rest.now ≡ []) }
        ensures more { IfSome result (λ r. Passes self.entry (r.0 ∷ []) r.1) }
    {
        let mut characters = self.rest.chars();
        let character = characters.next()?;
        let behind = Cursor {
            rest: characters.as_str(),
            offset: self.offset + character.len_utf8(),
            place: self.place.behind(character),
        };
        Some((character, behind))
    }

    /// The text from here to a cursor behind it.
    pub(crate) fn text_to(self, end: Cursor<'a>) -> &'a str
        requires { (front : List ℕ) × Passes self front end }
        ensures bytes { (front : List ℕ) → Passes self.entry front end.entry
            → result.now ≡ encode_utf8_all front }
        ensures characters { (front : List ℕ) → Passes self.entry front end.entry
            → chars result.now ≡ front }
    {
        &self.rest[..end.offset - self.offset]
    }
}
