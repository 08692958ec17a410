//! Refusals of a file or a script, in words.

ghost use Rattle.std.specs.Prelude.{◌≡◌, IfOk, false};
ghost use Rattle.std.specs.String.{string_bytes};
ghost use Rattle.diagnostics.specs.Messages.{IsMessage};
ghost use Rattle.program.specs.Given.{sent};
ghost use Rattle.program.specs.declared.files.Unread.TheVariants as unread;
ghost use Rattle.told_refusals.specs.FileNames.{shown_name};
ghost use Rattle.told_refusals.specs.Refusals.{TellsRefusal, TellsUnread, refused_text};

use crate::file_name::{shown_name, unread_line};
use diagnostics::{Fault, message};
use program::{Lack, Refusal, Unread, refuse, refuse_words};
use report::Sink;
use std::alloc::{AllocError, Allocator};

/// Tells `err` why the file is not read, and answers the status of a refusal. A file that cannot be read is told by its
/// name and with the reason, unless memory is refused for it.
pub fn refuse_unread<A: Allocator + Copy, E: Sink>(
    alloc: A,
    file: &str,
    fault: Unread,
    err: &mut E,
) -> u8
    requires { E.has_failed err.old ≡ false }
    ensures status { result ≡ 3 }
    ensures told { TellsUnread file.now fault (sent E.taken E.has_failed err.old err.new) }
{
    match fault {
        Unread::File(why) => refuse_name(alloc, file, why, err),
        Unread::Memory => refuse(Refusal::Memory, err),
    }
}

// The same of a file that cannot be read, for this reason.
fn refuse_name<A: Allocator + Copy, E: Sink>(alloc: A, file: &str, why: Lack, err: &mut E) -> u8
    requires { E.has_failed err.old ≡ false }
    ensures status { result ≡ 3 }
    ensures told { let errors = sent E.taken E.has_failed err.old err.new in
        TellsUnread file.now (unread.File why) errors }
{
    match unread_line(alloc, file, why) {
        Ok(line) => refuse_words(line.as_str(), err),
        Err(_) => refuse(Refusal::File(why), err),
    }
}

/// Tells `err` why the text of this file is refused, and answers the status of a refusal. It is told in words, or where
/// memory is refused for them by its line.
pub fn refuse_text<A: Allocator + Copy, E: Sink>(
    alloc: A,
    file: &str,
    text: &[u8],
    why: Refusal,
    err: &mut E,
) -> u8
    requires { E.has_failed err.old ≡ false }
    ensures status { result ≡ 3 }
    ensures told { TellsRefusal file.now text.now why (sent E.taken E.has_failed err.old err.new) }
{
    let Some(refused) = refused_text(why) else {
        return refuse(why, err);
    };
    match words(alloc, file, text, refused) {
        Ok(words) => refuse_words(words.as_str(), err),
        Err(_) => refuse(why, err),
    }
}

// The refusal in words, with the file's name as it is shown.
fn words<A: Allocator + Copy>(
    alloc: A,
    file: &str,
    text: &[u8],
    refused: diagnostics::Refusal,
) -> Result<String<A>, AllocError>
    ensures { IfOk result (λ words. IsMessage (shown_name file.now) text.now refused
        (string_bytes words)) }
{
    let name = shown_name(alloc, file)?;
    message(alloc, name.as_str(), text, refused)
}

/// What is refused of a text, where that is what is refused.
pub fn refused_text(why: Refusal) -> Option<diagnostics::Refusal>
    ensures { result ≡ refused_text why }
{
    let (fault, place) = match why {
        Refusal::Text { fault, place } => (Fault::Text(fault), place),
        Refusal::Grammar { fault, place } => (Fault::Grammar(fault), place),
        Refusal::Kinds { fault, place } => (Fault::Kinds(fault), place),
        Refusal::File(_) | Refusal::Memory | Refusal::Thread | Refusal::Output => return None,
    };
    Some(diagnostics::Refusal { fault, place })
}
