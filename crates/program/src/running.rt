//! The program, over its words, files and streams.

ghost use Rattle.std.specs.Prelude.{◌≡◌, ◌≤◌, ◌<◌, map, false, IfOk, IfErr, ◌⊎◌};
ghost use Rattle.csp_term.specs.Script.{script_of};
ghost use Rattle.pair_store.specs.Bounds.{bounds_of};
ghost use Rattle.report.specs.Sending.{Sends, Breaks};
ghost use Rattle.settings.specs.Faults.{AreWrong};
ghost use Rattle.verdict.specs.Outcome.{outcome_of};
ghost use Rattle.program.specs.Given.{given_of, sent};
ghost use Rattle.program.specs.Refusal.{refusal_line};
ghost use Rattle.program.specs.declared.refusal.Refusal.TheVariants as refusal;
ghost use Rattle.program.specs.Answering.{AreRightSettled};
ghost use Rattle.program.specs.Reading.{IsRefusalOf, IsTextRead};
ghost use Rattle.program.specs.Running.{IsCause, IsCheckRefused, IsGiven, IsRefused, IsReported, IsServed, Leaves, check_of, limits_of, names_read, outcome_status, status_of, texts_of};

use crate::files::Files;
use crate::reader;
use crate::refusal::{Refusal, push_line};
use crate::resources::Resources;
use csp_settling::settled_assertion;
use csp_term::{AllocHandle, Memory, Script};
use explore::{Open, explore};
use pair_store::Limits;
use report::{Sink, push_all, write};
use settings::{CommandLineFault, Settings};
use std::sync::Wait;
use std::thread::Threads;
use verdict::Outcome;

/// The whole program: checks the assertions of the script in the file that the words name, within the limits that they
/// choose, and gives the report to `out`, or the line of a refusal to `err`. Where the words ask for the help or the
/// version, this text goes to `out`.
///
/// Answers the status: 3 where anything was refused, else 2 where an assertion has no answer within the limits, else 1
/// where one fails, else 0. The words are looked at first, then the file, whether its text is too long for the stack, the
/// script and the output. A failure of `err` changes nothing.
pub fn run<
    'w,
    A: AllocHandle + Send + Sync,
    R: Threads + Wait + Sync,
    F: Files<A>,
    O: Sink,
    E: Sink,
>(
    resources: &Resources<'_, A, R>,
    words: &'w [&'w str],
    files: &mut F,
    out: &mut O,
    err: &mut E,
) -> u8
    requires out { O.has_failed out.old ≡ false }
    requires err { E.has_failed err.old ≡ false }
    ensures status { result ≤ 3 }
    ensures served { let given = given_of F.may_hold F.may_lack files.old resources.now.stack in
        let output = sent O.taken O.has_failed out.old out.new in
        result < 3 → IsServed given (texts_of words.entry.now) output result }
    ensures silent { result < 3 → err.new ≡ err.old }
    ensures refused { let given = given_of F.may_hold F.may_lack files.old resources.now.stack in
        let output = sent O.taken O.has_failed out.old out.new in
        let errors = sent E.taken E.has_failed err.old err.new in
        result ≡ 3 → IsRefused given (texts_of words.entry.now) output errors }
{
    match settings::read(resources.command_line, words) {
        Ok(settings) => check(resources, &settings, files, out, err),
        Err(CommandLineFault::Help(text)) => show(text.as_str(), out, err),
        Err(CommandLineFault::Version(text)) => show(text.as_str(), out, err),
        Err(CommandLineFault::Refused(text)) => refuse_words(text.as_str(), err),
        Err(CommandLineFault::Memory) => refuse(Refusal::Memory, err),
    }
}

/// Gives the line of a refusal to `err`, and answers its status.
pub fn refuse<E: Sink>(why: Refusal, err: &mut E) -> u8
    requires { E.has_failed err.old ≡ false }
    ensures status { result ≡ 3 }
    ensures line { IsGiven (sent E.taken E.has_failed err.old err.new) (refusal_line why) }
{
    push_line(why, err);
    3
}

/// Gives a text that says what is refused to `err`, and answers the status of a refusal.
pub fn refuse_words<E: Sink>(text: &str, err: &mut E) -> u8
    requires { E.has_failed err.old ≡ false }
    ensures status { result ≡ 3 }
    ensures text { IsGiven (sent E.taken E.has_failed err.old err.new) text.now }
{
    let _ = push_all(text.as_bytes(), err);
    3
}

/// Gives a text that the words ask for to `out`. Answers 0, or where `out` fails the status of that refusal.
pub fn show<O: Sink, E: Sink>(text: &str, out: &mut O, err: &mut E) -> u8
    requires out { O.has_failed out.old ≡ false }
    requires err { E.has_failed err.old ≡ false }
    ensures status { (result ≡ 0) ⊎ (result ≡ 3) }
    ensures shown { result ≡ 0
        → Sends (O.taken out.old) (O.taken out.new) (O.has_failed out.new) text.now }
    ensures silent { result ≡ 0 → err.new ≡ err.old }
    ensures cut { result ≡ 3
        → Breaks (O.taken out.old) (O.taken out.new) (O.has_failed out.new) text.now }
    ensures refused { let errors = sent E.taken E.has_failed err.old err.new in
        result ≡ 3 → IsGiven errors (refusal_line refusal.Output) }
{
    match push_all(text.as_bytes(), out) {
        Ok(()) => 0,
        Err(_) => refuse(Refusal::Output, err),
    }
}

// Checks what the settings ask for.
fn check<A: AllocHandle + Send + Sync, R: Threads + Wait + Sync, F: Files<A>, O: Sink, E: Sink>(
    resources: &Resources<'_, A, R>,
    settings: &Settings<'_>,
    files: &mut F,
    out: &mut O,
    err: &mut E,
) -> u8
    requires out { O.has_failed out.old ≡ false }
    requires err { E.has_failed err.old ≡ false }
    ensures status { result ≤ 3 }
    ensures reported { let given = given_of F.may_hold F.may_lack files.old resources.now.stack in
        let output = sent O.taken O.has_failed out.old out.new in
        result < 3 → IsReported given settings.now.file.now (check_of settings.now) output result }
    ensures silent { result < 3 → err.new ≡ err.old }
    ensures refused { let given = given_of F.may_hold F.may_lack files.old resources.now.stack in
        let output = sent O.taken O.has_failed out.old out.new in
        let errors = sent E.taken E.has_failed err.old err.new in
        let asked = check_of settings.now in
        result ≡ 3 → IsCheckRefused given settings.now.file.now asked output errors }
{
    match answer(resources, settings, files, out) {
        Ok(status) => status,
        Err(why) => refuse(why, err),
    }
}

// Reads, checks and reports. The status is at most 2.
fn answer<A: AllocHandle + Send + Sync, R: Threads + Wait + Sync, F: Files<A>, O: Sink>(
    resources: &Resources<'_, A, R>,
    settings: &Settings<'_>,
    files: &mut F,
    out: &mut O,
) -> Result<u8, Refusal>
    requires { O.has_failed out.old ≡ false }
    ensures reported { let given = given_of F.may_hold F.may_lack files.old resources.now.stack in
        let asked = check_of settings.now in
        let output = sent O.taken O.has_failed out.old out.new in
        IfOk result (λ status. (status ≤ 2)
        × IsReported given settings.now.file.now asked output status) }
    ensures cause { let given = given_of F.may_hold F.may_lack files.old resources.now.stack in
        IfErr result (IsCause given settings.now.file.now) }
    ensures refused { let given = given_of F.may_hold F.may_lack files.old resources.now.stack in
        let asked = check_of settings.now in
        let output = sent O.taken O.has_failed out.old out.new in
        IfErr result (λ why. Leaves given settings.now.file.now asked why output) }
{
    let text = files.read(settings.file)?;
    if !resources.stack.takes(text.len()) {
        return Err(Refusal::Thread);
    }
    let script = read_as_asked(resources.alloc, settings, &text)?;
    let limits = limits(settings);
    let outcomes = outcomes(resources, &script, limits, settings.workers)?;
    match write(&script, &outcomes, out) {
        Ok(()) => Ok(status(&outcomes)),
        Err(_) => Err(Refusal::Output),
    }
}

// The script of the text, with its names as the settings ask.
fn read_as_asked<A: AllocHandle>(
    alloc: A,
    settings: &Settings<'_>,
    text: &[u8],
) -> Result<Script<A>, Refusal>
    ensures script { let names = names_read settings.now.at_once in
        IfOk result (λ script. IsTextRead names text.now (script_of script)) }
    ensures refused { IfErr result (λ why. IsRefusalOf text.now why) }
{
    let script = reader::read(alloc, text)?;
    if settings.at_once {
        Ok(script.at_once())
    } else {
        Ok(script)
    }
}

// The limits of each search. The settings keep them in range.
fn limits(settings: &Settings<'_>) -> Limits
    ensures { bounds_of result ≡ limits_of settings.now }
{
    Limits::new(settings.max_pairs, settings.max_nodes)
}

// A right outcome for each assertion, in order, each by so many workers.
fn outcomes<A: AllocHandle + Send + Sync, R: Threads + Wait + Sync>(
    resources: &Resources<'_, A, R>,
    script: &Script<A>,
    limits: Limits,
    workers: usize,
) -> Result<Vec<Outcome<A>, A>, Memory>
    requires { (1 ≤ workers) × (workers ≤ 64) }
    ensures { let it = script_of script.now in
        let bounds = bounds_of limits in
        IfOk result (λ all. AreRightSettled it bounds it.assertions (map outcome_of all.items)) }
{
    let (alloc, rt) = (resources.alloc, resources.rt);
    let mut outcomes = Vec::new(alloc);
    for assertion in script.assertions() {
        let settled = settled_assertion(alloc, script.parts(), assertion)?;
        outcomes.push(explore(alloc, rt, script, &settled, limits, workers, &Open))?;
    }
    Ok(outcomes)
}

// The greatest status of an outcome.
fn status<A: AllocHandle>(outcomes: &[Outcome<A>]) -> u8
    ensures { result ≡ status_of (map outcome_of outcomes.now) }
{
    let mut status = 0;
    for outcome in outcomes {
        status = status.max(status_of_one(outcome));
    }
    status
}

fn status_of_one<A: AllocHandle>(outcome: &Outcome<A>) -> u8
    ensures { result ≡ outcome_status (outcome_of outcome.now) }
{
    match outcome {
        Outcome::Holds => 0,
        Outcome::Fails(_) | Outcome::Denied => 1,
        Outcome::Unknown(_) => 2,
    }
}
