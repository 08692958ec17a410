//! A walk by the lines of an input.

ghost use Rattle.std.specs.Prelude.{◌≡◌, [], Option, IfErr, IfOk, false};
ghost use Rattle.theory_semantics.specs.Kinds.Scripts.{IsTermOf};
ghost use Rattle.theory_walk.specs.Walks.{Place, shown};
ghost use Rattle.report.specs.Sending.{IsSent, Sends};
ghost use Rattle.csp_print.specs.Names.{names_of};
ghost use Rattle.csp_term.specs.Script.{script_of};
ghost use Rattle.csp_term.specs.Term.{process_of};
ghost use Rattle.counterexample.specs.Widths.{width_of};
ghost use Rattle.state_walk.specs.Walks.{IsKept, IsSameScript, place_of, trail_of};
ghost use Rattle.program.specs.Given.{sent};
ghost use Rattle.walk_program.specs.Asking.{IsStart, request_of, width_of_number};
ghost use Rattle.walk_program.specs.Lines.{left};
ghost use Rattle.walk_program.specs.Stops.{LeavesText};
ghost use Rattle.walk_program.specs.Walking.{IsAnswered, IsUnwalked, IsWalked, next_at};

use crate::lines::read_line;
use crate::stop::Stop;
use counterexample::Width;
use csp_print::Names;
use csp_term::{AllocHandle, Term};
use named_scripts::NamedScript;
use program::Refusal;
use report::{Sink, push_all};
use state_walk::{Answer, Walk};
use std::alloc::Allocator;
use std::io::Read;
use walk_settings::Settings;

// How states are shown: by these names, and as wide.
#[derive(Clone, Copy, Drop)]
struct View<'n, 't, A: Allocator> {
    names: &'n Names<'t, A>,
    width: Width,
}

/// Walks from the start, which is a term of the script, by the lines of the input, to its end.
pub(crate) fn walk_from<A: AllocHandle, I: Read, O: Sink>(
    alloc: A,
    settings: &Settings<'_>,
    named: &NamedScript<'_, A>,
    start: &Term<A>,
    input: &mut I,
    out: &mut O,
) -> Result<(), Stop>
    requires works { O.has_failed out.old ≡ false }
    requires closed { IsTermOf (script_of named.now.script) (process_of start.now) }
    requires asked { IsStart (request_of settings.now) (script_of named.now.script)
        (process_of start.now) }
    ensures walked { let request = request_of settings.now in
        let it = script_of named.now.script in
        let names = names_of named.now.names in
        let read = left I.remaining input.old input.new in
        let output = sent O.taken O.has_failed out.old out.new in
        IfOk result (λ _. IsWalked request it names read output) }
    ensures stopped { let request = request_of settings.now in
        let it = script_of named.now.script in
        let names = names_of named.now.names in
        let read = left I.remaining input.old input.new in
        let output = sent O.taken O.has_failed out.old out.new in
        IfErr result (λ why. IsUnwalked request it names read why output) }
{
    let view = View {
        names: &named.names,
        width: width(settings.width),
    };
    let mut walk = Walk::new(alloc, &named.script, start)?;
    follow(alloc, settings, &view, &mut walk, input, out)
}

// Shows the start, and then answers the lines of the input, to the end of the walk.
fn follow<A: AllocHandle, I: Read, O: Sink>(
    alloc: A,
    settings: &Settings<'_>,
    view: &View<'_, '_, A>,
    walk: &mut Walk<'_, A>,
    input: &mut I,
    out: &mut O,
) -> Result<(), Stop>
    requires works { O.has_failed out.old ≡ false }
    requires width { width_of view.now.width ≡ (request_of settings.now).width }
    requires kept { IsKept walk.old }
    requires begun { (trail_of walk.old).taken ≡ [] }
    requires asked { IsStart (request_of settings.now) (script_of walk.old.script.now)
        (trail_of walk.old).start }
    ensures walked { let request = request_of settings.now in
        let it = script_of walk.old.script.now in
        let names = names_of view.now.names.now in
        let read = left I.remaining input.old input.new in
        let output = sent O.taken O.has_failed out.old out.new in
        IfOk result (λ _. IsWalked request it names read output) }
    ensures stopped { let request = request_of settings.now in
        let it = script_of walk.old.script.now in
        let names = names_of view.now.names.now in
        let read = left I.remaining input.old input.new in
        let output = sent O.taken O.has_failed out.old out.new in
        IfErr result (λ why. IsUnwalked request it names read why output) }
{
    show(alloc, view, walk, out)?;
    for _ in 0..u64::MAX {
        let line = read_line(alloc, input)?;
        if line.is_nothing() {
            return Ok(());
        }
        let goes_on = obey(alloc, view, line.command(), walk, out)?;
        if !goes_on {
            return Ok(());
        }
        if !line.has_end {
            return Ok(());
        }
    }
    Err(Stop::Input)
}

// 0 stands for all characters.
fn width(number: usize) -> Width
    ensures { width_of result ≡ width_of_number number }
{
    if number == 0 {
        Width::Whole
    } else {
        Width::UpTo(number)
    }
}

// Gives `out` what the command gives, and answers whether the walk goes on.
fn obey<A: AllocHandle, O: Sink>(
    alloc: A,
    view: &View<'_, '_, A>,
    command: &[u8],
    walk: &mut Walk<'_, A>,
    out: &mut O,
) -> Result<bool, Stop>
    requires works { O.has_failed out.old ≡ false }
    requires kept { IsKept walk.old }
    ensures kept { IsKept walk.new }
    ensures script { IsSameScript walk.old walk.new }
    ensures answered { let it = script_of walk.old.script.now in
        let names = names_of view.now.names.now in
        let width = width_of view.now.width in
        let sends = Sends (O.taken out.old) (O.taken out.new) (O.has_failed out.new) in
        IfOk result (λ goes_on. IsAnswered it names width (place_of walk.old) command.now
        (next_at goes_on (place_of walk.new)) sends) }
    ensures cut { let it = script_of walk.old.script.now in
        let names = names_of view.now.names.now in
        let width = width_of view.now.width in
        let output = sent O.taken O.has_failed out.old out.new in
        IfErr result (λ why. LeavesText why (λ WentOut. (next : Option Place)
        × IsAnswered it names width (place_of walk.old) command.now next WentOut) output) }
{
    let answer = walk.answer(alloc, view.names, command)?;
    match answer {
        Answer::Shown => {
            show(alloc, view, walk, out)?;
            Ok(true)
        }
        Answer::Said(text) => {
            say(text, out)?;
            Ok(true)
        }
        Answer::Ended => Ok(false),
    }
}

// Gives `out` the state where the walk is, with what it offers.
fn show<A: AllocHandle, O: Sink>(
    alloc: A,
    view: &View<'_, '_, A>,
    walk: &Walk<'_, A>,
    out: &mut O,
) -> Result<(), Stop>
    requires { O.has_failed out.old ≡ false }
    ensures shown { let names = names_of view.now.names.now in
        let text = shown names (width_of view.now.width) (place_of walk.now) in
        IsSent O.taken O.has_failed out.old out.new text result }
    ensures cut { let names = names_of view.now.names.now in
        let text = shown names (width_of view.now.width) (place_of walk.now) in
        let output = sent O.taken O.has_failed out.old out.new in
        IfErr result (λ why. LeavesText why (λ WentOut. WentOut text) output) }
{
    let mut text = String::new(alloc);
    walk.push_view(alloc, view.names, view.width, &mut text)?;
    say(text.as_str(), out)
}

// Gives `out` the text.
fn say<O: Sink>(text: &str, out: &mut O) -> Result<(), Stop>
    requires { O.has_failed out.old ≡ false }
    ensures said { IsSent O.taken O.has_failed out.old out.new text.now result }
    ensures cut { let output = sent O.taken O.has_failed out.old out.new in
        IfErr result (λ why. LeavesText why (λ WentOut. WentOut text.now) output) }
{
    match push_all(text.as_bytes(), out) {
        Ok(()) => Ok(()),
        Err(_) => Err(Stop::Refused(Refusal::Output)),
    }
}
