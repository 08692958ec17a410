//! Parts of a text.

ghost use Rattle.std.specs.Prelude.{◌≡◌, take};
ghost use Rattle.std.specs.Str.Lossy.{utf8_valid_len};
ghost use Rattle.diagnostics.specs.Excerpts.{line_of};

use std::str;

/// What the bytes spell before the first of them that is no UTF-8.
pub fn readable(bytes: &[u8]) -> &str
    ensures { result.now ≡ take (utf8_valid_len bytes.now) bytes.now }
{
    match str::from_utf8(bytes) {
        Ok(text) => text,
        Err(error) => str::from_utf8(&bytes[..error.valid_up_to()]).unwrap(),
    }
}

/// The line with this number, counted from 1, without its line feed. One that there is none of is empty.
pub fn line_at(text: &str, number: u32) -> &str
    ensures { result.now ≡ line_of text.now number }
{
    let index = number.saturating_sub(1) as usize;
    text.split('\n').nth(index).unwrap_or("")
}
