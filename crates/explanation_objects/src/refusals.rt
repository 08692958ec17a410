//! Refusals as lines.

ghost use Rattle.std.specs.Prelude.{◌≡◌, ◌∷◌, [], IfOk, codes};
ghost use Rattle.std.specs.String.{string_bytes};
ghost use Rattle.theory_objects.specs.Fields.{object_line, text_field};
ghost use Rattle.theory_objects.specs.Refusals.{help_fields, refusal_fields, text_fields, unread_fields};
ghost use Rattle.csp_lex.specs.Places.{place_of};
ghost use Rattle.explanation_objects.specs.Putting.{Puts};

use crate::fields::put_text;
use crate::lines::{begin_line, end_line};
use crate::places::put_place;
use csp_lex::Place;
use json::Writer;
use std::alloc::{AllocError, Allocator};

/// A refused text.
#[derive(Clone, Copy, Drop)]
pub struct RefusedText<'a> {
    /// The name of its file.
    pub file: &'a str,
    /// The number of the refusal.
    pub number: &'a str,
    /// The rule that is broken.
    pub rule: &'a str,
    /// The place.
    pub place: Place,
    /// What may be meant, or nothing.
    pub help: &'a str,
    /// What is told of it in words.
    pub words: &'a str,
}

/// The line of a file of this name that cannot be read, for this reason.
pub fn unread_line<A: Allocator>(
    alloc: A,
    file: &str,
    reason: &str,
) -> Result<String<A>, AllocError>
    ensures { IfOk result (λ line. string_bytes line
        ≡ object_line (unread_fields file.now reason.now)) }
{
    let mut writer = begin_line(alloc)?;
    put_unread(file, reason, &mut writer)?;
    end_line(writer)
}

/// The line of a refused text.
pub fn text_line<A: Allocator>(alloc: A, refused: &RefusedText<'_>) -> Result<String<A>, AllocError>
    ensures { let it = refused.now in
        let fields = text_fields it.file.now it.number.now it.rule.now (place_of it.place)
        it.help.now it.words.now in
        IfOk result (λ line. string_bytes line ≡ object_line fields) }
{
    let mut writer = begin_line(alloc)?;
    put_refused(refused, &mut writer)?;
    end_line(writer)
}

fn put_unread<A: Allocator>(
    file: &str,
    reason: &str,
    writer: &mut Writer<A>,
) -> Result<(), AllocError>
    ensures { Puts result writer.old writer.new (unread_fields file.now reason.now) }
{
    put_refusal("file", writer)?;
    put_text("file", file, writer)?;
    put_text("reason", reason, writer)
}

fn put_refused<A: Allocator>(
    refused: &RefusedText<'_>,
    writer: &mut Writer<A>,
) -> Result<(), AllocError>
    ensures { let it = refused.now in
        let fields = text_fields it.file.now it.number.now it.rule.now (place_of it.place)
        it.help.now it.words.now in
        Puts result writer.old writer.new fields }
{
    put_refusal(refused.number, writer)?;
    put_text("file", refused.file, writer)?;
    put_place(refused.place, writer)?;
    put_text("rule", refused.rule, writer)?;
    put_help(refused.help, writer)?;
    put_text("words", refused.words, writer)
}

// What may be meant, if anything is told of that.
fn put_help<A: Allocator>(help: &str, writer: &mut Writer<A>) -> Result<(), AllocError>
    ensures { Puts result writer.old writer.new (help_fields help.now) }
{
    if help.is_empty() {
        return Ok(());
    }
    put_text("help", help, writer)
}

// That it is refused, and by which word or number.
fn put_refusal<A: Allocator>(refusal: &str, writer: &mut Writer<A>) -> Result<(), AllocError>
    ensures { Puts result writer.old writer.new (refusal_fields refusal.now) }
{
    put_text("answer", "refused", writer)?;
    put_text("refusal", refusal, writer)
}
