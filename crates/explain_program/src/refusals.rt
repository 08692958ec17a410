//! Refusals of a file or a script, in words.

ghost use Rattle.std.specs.Prelude.{◌≡◌, IfOk, List, false, ℕ};
ghost use Rattle.std.specs.String.{string_bytes};
ghost use Rattle.theory_objects.specs.Fields.{object_line};
ghost use Rattle.theory_objects.specs.Refusals.{text_fields};
ghost use Rattle.csp_lex.specs.Places.{place_of};
ghost use Rattle.diagnostics.specs.Faults.{fault_number, fault_rule};
ghost use Rattle.explain_settings.specs.declared.format.Format.TheVariants as formats;
ghost use Rattle.program.specs.Given.{sent};
ghost use Rattle.program.specs.declared.files.Unread.TheVariants as unread;
ghost use Rattle.told_refusals.specs.FileNames.{shown_name};
ghost use Rattle.explain_program.specs.Refusals.{TellsRefusal, TellsUnread, refused_line, unread_text};

use crate::stop::{Stop, report_stop};
use diagnostics::{help, message_with};
use explain_settings::{Format, Settings};
use explanation_objects::{RefusedText, text_line};
use program::{Lack, Refusal, Unread, refuse_words};
use report::Sink;
use std::alloc::{AllocError, Allocator};
use told_refusals::{lack_text, refused_text, shown_name, unread_line};

/// Tells `err` why the file is not read, and answers the status of a refusal. A file that cannot be read is told by its
/// name and with the reason, unless memory is refused for it.
pub(crate) fn refuse_unread<A: Allocator + Copy, E: Sink>(
    alloc: A,
    settings: &Settings<'_>,
    fault: Unread,
    err: &mut E,
) -> u8
    requires { E.has_failed err.old ≡ false }
    ensures status { result ≡ 3 }
    ensures told { let errors = sent E.taken E.has_failed err.old err.new in
        TellsUnread settings.now.format settings.now.file.now fault errors }
{
    match fault {
        Unread::File(why) => refuse_name(alloc, settings, why, err),
        Unread::Memory => report_stop(settings.format, Stop::Refused(Refusal::Memory), err),
    }
}

// The same of a file that cannot be read, for this reason.
fn refuse_name<A: Allocator + Copy, E: Sink>(
    alloc: A,
    settings: &Settings<'_>,
    why: Lack,
    err: &mut E,
) -> u8
    requires { E.has_failed err.old ≡ false }
    ensures status { result ≡ 3 }
    ensures told { let errors = sent E.taken E.has_failed err.old err.new in
        TellsUnread settings.now.format settings.now.file.now (unread.File why) errors }
{
    match unread_text(alloc, settings, why) {
        Ok(text) => refuse_words(text.as_str(), err),
        Err(_) => report_stop(settings.format, Stop::Refused(Refusal::File(why)), err),
    }
}

// What is told of it, in the format.
fn unread_text<A: Allocator + Copy>(
    alloc: A,
    settings: &Settings<'_>,
    why: Lack,
) -> Result<String<A>, AllocError>
    ensures { IfOk result (λ text. string_bytes text
        ≡ unread_text settings.now.format settings.now.file.now why) }
{
    match settings.format {
        Format::Text => unread_line(alloc, settings.file, why),
        Format::Json => unread_object(alloc, settings.file, why),
    }
}

// The line of the object of such a file.
fn unread_object<A: Allocator + Copy>(
    alloc: A,
    name: &str,
    why: Lack,
) -> Result<String<A>, AllocError>
    ensures { IfOk result (λ line. string_bytes line ≡ unread_text formats.Json name.now why) }
{
    let shown = shown_name(alloc, name)?;
    explanation_objects::unread_line(alloc, shown.as_str(), lack_text(why))
}

/// Tells `err` why the text of this file is refused, and answers the status of a refusal. It is told in words, or where
/// memory is refused for them by its line.
pub(crate) fn refuse_text<A: Allocator + Copy, E: Sink>(
    alloc: A,
    settings: &Settings<'_>,
    text: &[u8],
    why: Refusal,
    err: &mut E,
) -> u8
    requires { E.has_failed err.old ≡ false }
    ensures status { result ≡ 3 }
    ensures told { let errors = sent E.taken E.has_failed err.old err.new in
        TellsRefusal settings.now.format settings.now.file.now text.now why errors }
{
    let Some(refused) = refused_text(why) else {
        return report_stop(settings.format, Stop::Refused(why), err);
    };
    match words(alloc, settings, text, refused) {
        Ok(words) => refuse_words(words.as_str(), err),
        Err(_) => report_stop(settings.format, Stop::Refused(why), err),
    }
}

// The refusal in words, or its object, with the file's name as it is shown.
fn words<A: Allocator + Copy>(
    alloc: A,
    settings: &Settings<'_>,
    text: &[u8],
    refused: diagnostics::Refusal,
) -> Result<String<A>, AllocError>
    ensures { let file = shown_name settings.now.file.now in
        IfOk result (λ words. (meant : List ℕ) × (string_bytes words
        ≡ refused_line settings.now.format file text.now refused meant)) }
{
    let name = shown_name(alloc, settings.file)?;
    let file = name.as_str();
    let lines = help(alloc, text, refused)?;
    let meant = lines.as_str();
    let told = message_with(alloc, file, text, refused, meant)?;
    match settings.format {
        Format::Text => Ok(told),
        Format::Json => refused_object(alloc, file, refused, meant, told.as_str()),
    }
}

// The line of the object of a refused text, with what may be meant, and what is told of it in words.
fn refused_object<A: Allocator>(
    alloc: A,
    file: &str,
    refused: diagnostics::Refusal,
    meant: &str,
    words: &str,
) -> Result<String<A>, AllocError>
    ensures { let number = fault_number refused.fault in
        let fields = text_fields file.now number (fault_rule refused.fault) (place_of refused.place)
        meant.now words.now in
        IfOk result (λ line. string_bytes line ≡ object_line fields) }
{
    let it = RefusedText {
        file,
        number: refused.fault.number(),
        rule: refused.fault.rule(),
        place: refused.place,
        help: meant,
        words,
    };
    text_line(alloc, &it)
}
