//! Names of files, as they are told.

ghost use Rattle.std.specs.Prelude.{◌≡◌, IfOk};
ghost use Rattle.std.specs.String.{string_bytes};
ghost use Rattle.diagnostics.specs.Excerpts.{shown_character};
ghost use Rattle.told_refusals.specs.FileNames.{lack_text, shown_name, unread_line};

use program::Lack;
use std::alloc::{AllocError, Allocator};

/// The name, with a space for each control character, so that it takes one line and does nothing to a terminal.
pub fn shown_name<A: Allocator>(alloc: A, name: &str) -> Result<String<A>, AllocError>
    ensures { IfOk result (λ shown. string_bytes shown ≡ shown_name name.now) }
{
    name.chars().map(shown_character).collect(alloc)
}

/// How a character is shown.
fn shown_character(character: char) -> char
    ensures { result ≡ shown_character character }
{
    if character.is_control() {
        ' '
    } else {
        character
    }
}

/// What is told of a file of this name that cannot be read, for this reason.
pub fn unread_line<A: Allocator + Copy>(
    alloc: A,
    name: &str,
    why: Lack,
) -> Result<String<A>, AllocError>
    ensures { IfOk result (λ line. string_bytes line ≡ unread_line name.now why) }
{
    let shown = shown_name(alloc, name)?;
    format!(in alloc; "{shown}: refused file: {}\n", lack_text(why))
}

/// Why a file cannot be read, in words.
pub fn lack_text(why: Lack) -> &'static str
    ensures { result.now ≡ lack_text why }
{
    match why {
        Lack::Missing => "there is no such file",
        Lack::Folder => "it is a folder",
        Lack::Forbidden => "it may not be read",
        Lack::Broken => "it cannot be read",
    }
}
