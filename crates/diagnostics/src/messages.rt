//! The message of a refusal.

ghost use Rattle.std.specs.Prelude.{◌≡◌, IfOk};
ghost use Rattle.std.specs.String.{string_bytes};
ghost use Rattle.diagnostics.specs.Messages.{IsMessage, heading, message_text};

use crate::excerpts::excerpt;
use crate::faults::Refusal;
use crate::helps::help;
use crate::texts::readable;
use std::alloc::{AllocError, Allocator};

/// The refusal of a text of this file in words: the place and the rule, the line of the text with a mark under the
/// place, and what may be meant. It is an error where memory is refused.
pub fn message<A: Allocator + Copy>(
    alloc: A,
    file: &str,
    text: &[u8],
    refusal: Refusal,
) -> Result<String<A>, AllocError>
    ensures { IfOk result (λ message. IsMessage file.now text.now refusal (string_bytes message)) }
{
    let help = help(alloc, text, refusal)?;
    message_with(alloc, file, text, refusal, help.as_str())
}

/// The same with these lines of what may be meant.
pub fn message_with<A: Allocator + Copy>(
    alloc: A,
    file: &str,
    text: &[u8],
    refusal: Refusal,
    help: &str,
) -> Result<String<A>, AllocError>
    ensures { let told = message_text file.now text.now refusal help.now in
        IfOk result (λ message. string_bytes message ≡ told) }
{
    let heading = heading(alloc, file, refusal)?;
    let excerpt = excerpt(alloc, readable(text), refusal.place)?;
    format!(in alloc; "{heading}{excerpt}{help}")
}

// The file with the place, the number and the rule.
fn heading<A: Allocator>(alloc: A, file: &str, refusal: Refusal) -> Result<String<A>, AllocError>
    ensures { IfOk result (λ line. string_bytes line ≡ heading file.now refusal) }
{
    let Refusal { fault, place } = refusal;
    let (number, rule) = (fault.number(), fault.rule());
    format!(in alloc; "{file}:{place}: {number}: {rule}\n")
}
