//! The explanations of the assertions of a script.

ghost use Rattle.std.specs.Prelude.{◌≡◌, ◌≤◌, ◌<◌, length, suc, false, IfOk, IfErr};
ghost use Rattle.csp_term.specs.Script.{script_of};
ghost use Rattle.program.specs.Given.{sent};
ghost use Rattle.explain_program.specs.Asking.{one_at, request_of};
ghost use Rattle.explain_program.specs.Explaining.{StopsBy, TellsAll};
ghost use Rattle.explain_program.specs.Giving.{AreTold, GoesOut, LeavesText};
ghost use Rattle.named_scripts.specs.Naming.{labels_of};

use crate::searching::answer_together;
use crate::statuses::outcome_status;
use crate::stop::Stop;
use crate::telling::explanation_text;
use crate::untold::Untold;
use csp_settling::settled_assertion;
use csp_term::AllocHandle;
use explain_settings::Settings;
use explanation::Question;
use named_scripts::NamedScript;
use program::Resources;
use report::{Sink, push_all};
use std::sync::Wait;
use std::thread::Threads;
use watch::Watch;

/// Explains the assertions of the script that the settings ask for. The status is at most 2.
pub(crate) fn explain_script<
    A: AllocHandle + Send + Sync,
    R: Threads + Wait + Sync,
    W: Watch + Sync,
    O: Sink,
>(
    resources: &Resources<'_, A, R>,
    watch: &W,
    settings: &Settings<'_>,
    named: &NamedScript<'_, A>,
    out: &mut O,
) -> Result<u8, Stop>
    requires { O.has_failed out.old ≡ false }
    ensures told { let request = request_of settings.now in
        let it = script_of named.now.script in
        let labels = labels_of named.now in
        let output = sent O.taken O.has_failed out.old out.new in
        IfOk result (λ status. (status ≤ 2) × TellsAll request it labels output status) }
    ensures stopped { let request = request_of settings.now in
        let it = script_of named.now.script in
        let labels = labels_of named.now in
        let output = sent O.taken O.has_failed out.old out.new in
        IfErr result (λ why. StopsBy request it labels why output) }
{
    if settings.assertion == 0 {
        return explain_each(resources, watch, settings, named, out);
    }
    let place = settings.assertion - 1;
    let count = named.script.assertions().len();
    if count <= place {
        return Err(Stop::NoAssertion);
    }
    Ok(explain_one(resources, watch, settings, named, place, out)?)
}

// Explains each assertion of the script.
fn explain_each<A: AllocHandle + Send + Sync, R: Threads + Wait + Sync, W: Watch + Sync, O: Sink>(
    resources: &Resources<'_, A, R>,
    watch: &W,
    settings: &Settings<'_>,
    named: &NamedScript<'_, A>,
    out: &mut O,
) -> Result<u8, Stop>
    requires works { O.has_failed out.old ≡ false }
    requires each { settings.now.assertion ≡ 0 }
    ensures told { let request = request_of settings.now in
        let it = script_of named.now.script in
        let labels = labels_of named.now in
        let output = sent O.taken O.has_failed out.old out.new in
        IfOk result (λ status. (status ≤ 2) × TellsAll request it labels output status) }
    ensures stopped { let request = request_of settings.now in
        let it = script_of named.now.script in
        let labels = labels_of named.now in
        let output = sent O.taken O.has_failed out.old out.new in
        IfErr result (λ why. StopsBy request it labels why output) }
{
    let count = named.script.assertions().len();
    let mut status = 0;
    for place in 0..count {
        let here = explain_one(resources, watch, settings, named, place, out)?;
        status = status.max(here);
    }
    Ok(status)
}

// Explains the assertion at the place.
fn explain_one<A: AllocHandle + Send + Sync, R: Threads + Wait + Sync, W: Watch + Sync, O: Sink>(
    resources: &Resources<'_, A, R>,
    watch: &W,
    settings: &Settings<'_>,
    named: &NamedScript<'_, A>,
    place: usize,
    out: &mut O,
) -> Result<u8, Untold>
    requires works { O.has_failed out.old ≡ false }
    requires there { place < length (script_of named.now.script).assertions }
    ensures told { let request = request_of settings.now in
        let it = script_of named.now.script in
        let labels = labels_of named.now in
        let output = sent O.taken O.has_failed out.old out.new in
        IfOk result (λ status. (status ≤ 2)
        × AreTold request it labels (suc place) (one_at place it.assertions)
        (GoesOut output.old output.new output.failed status)) }
    ensures left { let request = request_of settings.now in
        let it = script_of named.now.script in
        let labels = labels_of named.now in
        let output = sent O.taken O.has_failed out.old out.new in
        IfErr result (λ why. LeavesText why
        (λ WentOut. AreTold request it labels (suc place) (one_at place it.assertions)
        (λ _ text. WentOut text)) output) }
{
    let alloc = resources.alloc;
    let assertions = named.script.assertions();
    let written = &assertions[place];
    let asked = settled_assertion(alloc, named.script.parts(), written)?;
    let answer = answer_together(resources, watch, settings, &named.script, &asked, place + 1);
    let question = Question {
        number: place + 1,
        written,
        asked: &asked,
    };
    let text = explanation_text(alloc, settings, named, &question, &answer)?;
    match push_all(text.as_str().as_bytes(), out) {
        Ok(()) => Ok(outcome_status(&answer.found, written.negated)),
        Err(_) => Err(Untold::Output),
    }
}
