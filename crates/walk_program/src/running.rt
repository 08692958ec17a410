//! The program, over its words, files and streams.

ghost use Rattle.std.specs.Prelude.{◌≡◌, ◌⊎◌, false};
ghost use Rattle.program.specs.Given.{given_of, sent};
ghost use Rattle.program.specs.Running.{texts_of};
ghost use Rattle.walk_program.specs.Asking.{request_of};
ghost use Rattle.walk_program.specs.Lines.{left};
ghost use Rattle.walk_program.specs.Running.{IsRefused, IsServed, IsShown, IsStopped};

use crate::asking::walk_asked;
use crate::stop::report_stop;
use csp_term::AllocHandle;
use named_scripts::read;
use program::{Files, Refusal, Resources, refuse, refuse_words, show};
use report::Sink;
use settings::CommandLineFault;
use std::io::Read;
use told_refusals::{refuse_text, refuse_unread};
use walk_settings::Settings;

/// The whole program: walks through a side of an assertion of the script in the file that the words name, by the lines of
/// `input`, and gives to `out` each state with its steps, and what else is answered, as soon as a line was read; or tells
/// `err` what is refused, of a script in words. Where the words ask for the help or the version, this text goes to `out`.
///
/// A line of over 4,096 bytes stands for `?`, which names no step. Where `input` fails, that is refused.
///
/// Answers the status: 0 where the walk came to its end, by a line that ends it or at the end of `input`, or the text went
/// out; and 3 where anything was refused. The words are looked at first, then the file, whether its text is too long for
/// the stack, the script, the number of the assertion, whether it has the side, and then each line in turn. A failure of
/// `err` changes nothing.
pub fn run<'w, A: AllocHandle, R, F: Files<A>, I: Read, O: Sink, E: Sink>(
    resources: &Resources<'_, A, R>,
    words: &'w [&'w str],
    files: &mut F,
    input: &mut I,
    out: &mut O,
    err: &mut E,
) -> u8
    requires out { O.has_failed out.old ≡ false }
    requires err { E.has_failed err.old ≡ false }
    ensures status { (result ≡ 0) ⊎ (result ≡ 3) }
    ensures served { let given = given_of F.may_hold F.may_lack files.old resources.now.stack in
        let read = left I.remaining input.old input.new in
        let output = sent O.taken O.has_failed out.old out.new in
        result ≡ 0 → IsServed given (texts_of words.entry.now) read output }
    ensures silent { result ≡ 0 → err.new ≡ err.old }
    ensures refused { let given = given_of F.may_hold F.may_lack files.old resources.now.stack in
        let read = left I.remaining input.old input.new in
        let output = sent O.taken O.has_failed out.old out.new in
        let errors = sent E.taken E.has_failed err.old err.new in
        result ≡ 3 → IsRefused given (texts_of words.entry.now) read output errors }
{
    match walk_settings::read(resources.command_line, words) {
        Ok(settings) => walk_file(resources, &settings, files, input, out, err),
        Err(CommandLineFault::Help(text)) => show(text.as_str(), out, err),
        Err(CommandLineFault::Version(text)) => show(text.as_str(), out, err),
        Err(CommandLineFault::Refused(text)) => refuse_words(text.as_str(), err),
        Err(CommandLineFault::Memory) => refuse(Refusal::Memory, err),
    }
}

// Walks as the settings ask.
fn walk_file<A: AllocHandle, R, F: Files<A>, I: Read, O: Sink, E: Sink>(
    resources: &Resources<'_, A, R>,
    settings: &Settings<'_>,
    files: &mut F,
    input: &mut I,
    out: &mut O,
    err: &mut E,
) -> u8
    requires out { O.has_failed out.old ≡ false }
    requires err { E.has_failed err.old ≡ false }
    ensures status { (result ≡ 0) ⊎ (result ≡ 3) }
    ensures shown { let given = given_of F.may_hold F.may_lack files.old resources.now.stack in
        let read = left I.remaining input.old input.new in
        let output = sent O.taken O.has_failed out.old out.new in
        result ≡ 0 → IsShown given (request_of settings.now) read output }
    ensures silent { result ≡ 0 → err.new ≡ err.old }
    ensures stopped { let given = given_of F.may_hold F.may_lack files.old resources.now.stack in
        let read = left I.remaining input.old input.new in
        let output = sent O.taken O.has_failed out.old out.new in
        let errors = sent E.taken E.has_failed err.old err.new in
        result ≡ 3 → IsStopped given (request_of settings.now) read output errors }
{
    let text = match files.read(settings.file) {
        Ok(text) => text,
        Err(fault) => return refuse_unread(resources.alloc, settings.file, fault, err),
    };
    if !resources.stack.takes(text.len()) {
        return refuse(Refusal::Thread, err);
    }
    let alloc = resources.alloc;
    let named = match read(alloc, &text) {
        Ok(named) => named,
        Err(why) => return refuse_text(alloc, settings.file, &text, why, err),
    };
    let named = named.as_asked(settings.at_once);
    match walk_asked(alloc, settings, &named, input, out) {
        Ok(()) => 0,
        Err(why) => report_stop(why, err),
    }
}
