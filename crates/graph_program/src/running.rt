//! The program, over its words, files and streams.

ghost use Rattle.std.specs.Prelude.{◌≡◌, ◌⊎◌, false, IfOk, IfErr};
ghost use Rattle.theory_syntax.specs.Process.{ByTau};
ghost use Rattle.theory_syntax.specs.Readings.{reading};
ghost use Rattle.csp_term.specs.Script.{script_of};
ghost use Rattle.program.specs.Given.{given_of, sent};
ghost use Rattle.program.specs.Running.{names_read, texts_of};
ghost use Rattle.graph_program.specs.Asking.{request_of};
ghost use Rattle.graph_program.specs.Giving.{IsPrinted, IsUnprinted};
ghost use Rattle.graph_program.specs.Running.{IsDrawn, IsRefused, IsServed, IsStopped};

use crate::asking::asked_text;
use crate::stop::{Stop, report_stop};
use csp_term::{AllocHandle, Script};
use graph_settings::Settings;
use program::{Files, Refusal, Resources, refuse, refuse_words, show};
use report::{Sink, push_all};
use settings::CommandLineFault;
use told_refusals::{refuse_text, refuse_unread};
use watch::Watch;

/// The whole program: gives to `out` the text of the graph that the words ask for, of a side of an assertion of the script
/// in the file that they name; or tells `err` what is refused, of a script in words. Where the words ask for the help or
/// the version, this text goes to `out`.
///
/// Answers the status: 0 where that went out, and 3 where anything was refused. The words are looked at first, then the
/// file, whether its text is too long for the stack, the script, the number of the assertion, whether it has the side, the
/// graph, and the output. A failure of `err` changes nothing.
///
/// The watch is told how many states are found, where the words ask for that or someone watches. It takes these lines
/// itself, beside `out` and `err`, and nothing else depends on it.
pub fn run<'w, A: AllocHandle, R, F: Files<A>, W: Watch, O: Sink, E: Sink>(
    resources: &Resources<'_, A, R>,
    words: &'w [&'w str],
    files: &mut F,
    watch: &W,
    out: &mut O,
    err: &mut E,
) -> u8
    requires out { O.has_failed out.old ≡ false }
    requires err { E.has_failed err.old ≡ false }
    ensures status { (result ≡ 0) ⊎ (result ≡ 3) }
    ensures served { let given = given_of F.may_hold F.may_lack files.old resources.now.stack in
        let output = sent O.taken O.has_failed out.old out.new in
        result ≡ 0 → IsServed given (texts_of words.entry.now) output }
    ensures silent { result ≡ 0 → err.new ≡ err.old }
    ensures refused { let given = given_of F.may_hold F.may_lack files.old resources.now.stack in
        let output = sent O.taken O.has_failed out.old out.new in
        let errors = sent E.taken E.has_failed err.old err.new in
        result ≡ 3 → IsRefused given (texts_of words.entry.now) output errors }
{
    match graph_settings::read(resources.command_line, words) {
        Ok(settings) => draw(resources, &settings, files, watch, out, err),
        Err(CommandLineFault::Help(text)) => show(text.as_str(), out, err),
        Err(CommandLineFault::Version(text)) => show(text.as_str(), out, err),
        Err(CommandLineFault::Refused(text)) => refuse_words(text.as_str(), err),
        Err(CommandLineFault::Memory) => refuse(Refusal::Memory, err),
    }
}

// Prints the graph that the settings ask for.
fn draw<A: AllocHandle, R, F: Files<A>, W: Watch, O: Sink, E: Sink>(
    resources: &Resources<'_, A, R>,
    settings: &Settings<'_>,
    files: &mut F,
    watch: &W,
    out: &mut O,
    err: &mut E,
) -> u8
    requires out { O.has_failed out.old ≡ false }
    requires err { E.has_failed err.old ≡ false }
    ensures status { (result ≡ 0) ⊎ (result ≡ 3) }
    ensures drawn { let given = given_of F.may_hold F.may_lack files.old resources.now.stack in
        let output = sent O.taken O.has_failed out.old out.new in
        result ≡ 0 → IsDrawn given (request_of settings.now) output }
    ensures silent { result ≡ 0 → err.new ≡ err.old }
    ensures stopped { let given = given_of F.may_hold F.may_lack files.old resources.now.stack in
        let output = sent O.taken O.has_failed out.old out.new in
        let errors = sent E.taken E.has_failed err.old err.new in
        result ≡ 3 → IsStopped given (request_of settings.now) output errors }
{
    let text = match files.read(settings.file) {
        Ok(text) => text,
        Err(fault) => return refuse_unread(resources.alloc, settings.file, fault, err),
    };
    if !resources.stack.takes(text.len()) {
        return refuse(Refusal::Thread, err);
    }
    let alloc = resources.alloc;
    let script = match program::read(alloc, &text) {
        Ok(script) => script,
        Err(why) => return refuse_text(alloc, settings.file, &text, why, err),
    };
    let script = as_asked(script, settings.at_once);
    match print_graph(alloc, watch, settings, &script, out) {
        Ok(()) => 0,
        Err(why) => report_stop(why, err),
    }
}

// The script with its names unfolded at once, where that is asked for.
fn as_asked<A: AllocHandle>(script: Script<A>, at_once: bool) -> Script<A>
    ensures { let read = names_read at_once in
        (script_of script).unfolds ≡ ByTau → script_of result ≡ reading read (script_of script) }
{
    if at_once { script.at_once() } else { script }
}

// Gives `out` the text of the graph that the settings ask for.
fn print_graph<A: AllocHandle, W: Watch, O: Sink>(
    alloc: A,
    watch: &W,
    settings: &Settings<'_>,
    script: &Script<A>,
    out: &mut O,
) -> Result<(), Stop>
    requires { O.has_failed out.old ≡ false }
    ensures printed { let output = sent O.taken O.has_failed out.old out.new in
        IfOk result (λ _. IsPrinted (request_of settings.now) (script_of script.now) output) }
    ensures unprinted { let output = sent O.taken O.has_failed out.old out.new in
        IfErr result (λ why. IsUnprinted (request_of settings.now) (script_of script.now) why output) }
{
    let text = asked_text(alloc, watch, settings, script)?;
    match push_all(&text, out) {
        Ok(()) => Ok(()),
        Err(_) => Err(Stop::Refused(Refusal::Output)),
    }
}
