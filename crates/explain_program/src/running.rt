//! The program, over its words, files and streams.

ghost use Rattle.std.specs.Prelude.{◌≡◌, ◌≤◌, ◌<◌, false};
ghost use Rattle.program.specs.Given.{given_of, sent};
ghost use Rattle.program.specs.Running.{texts_of};
ghost use Rattle.explain_program.specs.Asking.{request_of};
ghost use Rattle.explain_program.specs.Running.{IsRefused, IsServed, IsStopped};
ghost use Rattle.explain_program.specs.Explaining.{IsExplained};

use crate::explaining::explain_script;
use crate::notes::note_none;
use crate::refusals::{refuse_text, refuse_unread};
use crate::stop::{Stop, report_stop};
use csp_term::AllocHandle;
use explain_settings::Settings;
use named_scripts::read;
use program::{Files, Refusal, Resources, refuse, refuse_words, show};
use report::Sink;
use settings::CommandLineFault;
use std::sync::Wait;
use std::thread::Threads;
use watch::Watch;

/// The whole program: answers the assertions that the words ask for, of the script in the file that they name and within
/// the limits that they choose, and gives to `out` what is told of each as soon as it is answered; or tells `err` what is
/// refused, of a script in words. Where the words ask for the help or the version, this text goes to `out`.
///
/// Answers the status: 3 where anything was refused, else 2 where an assertion has no answer within the limits, else 1
/// where one fails, else 0. Where each assertion is asked for and there is none, `err` is told so. The words are looked at
/// first, then the file, whether its text is too long for the stack, the script, the number of the assertion, and then each
/// assertion in turn. A failure of `err` changes nothing.
///
/// The watch is told how far a search is, where the words ask for that or someone watches. It takes these lines itself,
/// beside `out` and `err`; no answer depends on it, but for what a search took, where the words ask how large it was.
pub fn run<
    'w,
    A: AllocHandle + Send + Sync,
    R: Threads + Wait + Sync,
    F: Files<A>,
    W: Watch + Sync,
    O: Sink,
    E: Sink,
>(
    resources: &Resources<'_, A, R>,
    words: &'w [&'w str],
    files: &mut F,
    watch: &W,
    out: &mut O,
    err: &mut E,
) -> u8
    requires out { O.has_failed out.old ≡ false }
    requires err { E.has_failed err.old ≡ false }
    ensures status { result ≤ 3 }
    ensures served { let given = given_of F.may_hold F.may_lack files.old resources.now.stack in
        let output = sent O.taken O.has_failed out.old out.new in
        let errors = sent E.taken E.has_failed err.old err.new in
        result < 3 → IsServed given (texts_of words.entry.now) output errors result }
    ensures refused { let given = given_of F.may_hold F.may_lack files.old resources.now.stack in
        let output = sent O.taken O.has_failed out.old out.new in
        let errors = sent E.taken E.has_failed err.old err.new in
        result ≡ 3 → IsRefused given (texts_of words.entry.now) output errors }
{
    match explain_settings::read(resources.command_line, words) {
        Ok(settings) => explain(resources, &settings, files, watch, out, err),
        Err(CommandLineFault::Help(text)) => show(text.as_str(), out, err),
        Err(CommandLineFault::Version(text)) => show(text.as_str(), out, err),
        Err(CommandLineFault::Refused(text)) => refuse_words(text.as_str(), err),
        Err(CommandLineFault::Memory) => refuse(Refusal::Memory, err),
    }
}

// Explains what the settings ask for.
fn explain<
    A: AllocHandle + Send + Sync,
    R: Threads + Wait + Sync,
    F: Files<A>,
    W: Watch + Sync,
    O: Sink,
    E: Sink,
>(
    resources: &Resources<'_, A, R>,
    settings: &Settings<'_>,
    files: &mut F,
    watch: &W,
    out: &mut O,
    err: &mut E,
) -> u8
    requires out { O.has_failed out.old ≡ false }
    requires err { E.has_failed err.old ≡ false }
    ensures status { result ≤ 3 }
    ensures explained { let given = given_of F.may_hold F.may_lack files.old resources.now.stack in
        let output = sent O.taken O.has_failed out.old out.new in
        let errors = sent E.taken E.has_failed err.old err.new in
        result < 3 → IsExplained given (request_of settings.now) output errors result }
    ensures stopped { let given = given_of F.may_hold F.may_lack files.old resources.now.stack in
        let output = sent O.taken O.has_failed out.old out.new in
        let errors = sent E.taken E.has_failed err.old err.new in
        result ≡ 3 → IsStopped given (request_of settings.now) output errors }
{
    let text = match files.read(settings.file) {
        Ok(text) => text,
        Err(fault) => return refuse_unread(resources.alloc, settings, fault, err),
    };
    if !resources.stack.takes(text.len()) {
        return report_stop(settings.format, Stop::Refused(Refusal::Thread), err);
    }
    let alloc = resources.alloc;
    let named = match read(alloc, &text) {
        Ok(named) => named,
        Err(why) => return refuse_text(alloc, settings, &text, why, err),
    };
    let named = named.as_asked(settings.at_once);
    match explain_script(resources, watch, settings, &named, out) {
        Ok(status) => {
            note_none(settings.format, &named.script, err);
            status
        }
        Err(why) => report_stop(settings.format, why, err),
    }
}
