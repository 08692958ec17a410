//! A line with a mark under a place.

ghost use Rattle.std.specs.Prelude.{◌≡◌, IfOk, drop, map, take};
ghost use Rattle.std.specs.Str.{chars, encode_utf8_all};
ghost use Rattle.std.specs.String.{string_bytes};
ghost use Rattle.diagnostics.specs.Excerpts.{excerpt_of, shown_character, shown_part, spaces};

use crate::texts::line_at;
use csp_lex::Place;
use std::alloc::{AllocError, Allocator};
use std::iter;
use unicode_width::UnicodeWidthStr;

/// How many characters of a line are shown.
const SHOWN_LENGTH: usize = 76;

/// How many characters of a line are shown before the place, at most.
const LONGEST_FRONT: usize = 60;

/// The line of the text at the place, and under it a mark in the column of the place.
///
/// A control character is shown as a space. Of a long line that part is shown in which the place is.
pub fn excerpt<A: Allocator + Copy>(
    alloc: A,
    text: &str,
    place: Place,
) -> Result<String<A>, AllocError>
    ensures { IfOk result (λ excerpt. string_bytes excerpt ≡ excerpt_of text.now place) }
{
    let line = line_at(text, place.line);
    let index = place.column.saturating_sub(1) as usize;
    let first = index.saturating_sub(LONGEST_FRONT);
    let shown = shown_part(alloc, line, first, SHOWN_LENGTH)?;
    let front = shown_part(alloc, line, first, index - first)?;
    let padding = spaces(alloc, front.width())?;
    format!(in alloc; "    {shown}\n    {padding}^\n")
}

/// At most `count` characters of the line, from the one at `first` on, as they are shown.
fn shown_part<A: Allocator>(
    alloc: A,
    line: &str,
    first: usize,
    count: usize,
) -> Result<String<A>, AllocError>
    ensures { IfOk result (λ shown. string_bytes shown ≡ shown_part line.now first count) }
{
    line.chars()
        .skip(first)
        .take(count)
        .map(shown_character)
        .collect(alloc)
}

/// How a character is shown.
fn shown_character(character: char) -> char
    ensures { result ≡ shown_character character }
{
    if character.is_control() {
        ' '
    } else {
        character
    }
}

fn spaces<A: Allocator>(alloc: A, count: usize) -> Result<String<A>, AllocError>
    ensures { IfOk result (λ text. string_bytes text ≡ spaces count) }
{
    iter::repeat_n(' ', count).collect(alloc)
}
