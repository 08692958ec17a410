//! The graph that the settings ask for.

ghost use Rattle.std.specs.Prelude.{◌≡◌, ◌<◌, IfOk, IfErr, length, option_map};
ghost use Rattle.theory_search.specs.Terms.{IsAssertionOf};
ghost use Rattle.theory_semantics.specs.Kinds.Scripts.{IsTermOf};
ghost use Rattle.csp_term.specs.Script.{assertion_of, script_of};
ghost use Rattle.csp_term.specs.Term.{process_of};
ghost use Rattle.graph_program.specs.Asking.{request_of, side_of};
ghost use Rattle.graph_program.specs.Graphs.{IsGraphText};
ghost use Rattle.graph_program.specs.Stops.{IsStopIn};

use crate::printing::text_of;
use crate::stop::Stop;
use csp_settling::settled_assertion;
use csp_term::{AllocHandle, Assertion, Script, Term};
use graph_settings::Settings;
use progress::GraphProgress;
use state_graph::graph_of;
use watch::Watch;

/// The text of the graph that the settings ask for, of the side of an assertion of the script. With names at once the
/// side is settled first. Where it is asked for, or someone watches, the watch is told how many states are found.
pub(crate) fn asked_text<A: AllocHandle, W: Watch>(
    alloc: A,
    watch: &W,
    settings: &Settings<'_>,
    script: &Script<A>,
) -> Result<Vec<u8, A>, Stop>
    ensures text { IfOk result (λ text.
        IsGraphText (request_of settings.now) (script_of script.now) text.items) }
    ensures why { IfErr result (IsStopIn (request_of settings.now) (script_of script.now)) }
{
    let place = settings.assertion - 1;
    let assertions = script.assertions();
    if assertions.len() <= place {
        return Err(Stop::NoAssertion);
    }
    let written = &assertions[place];
    let asked = settled_assertion(alloc, script.parts(), written)?;
    let Some(start) = side_of(settings.specification, &asked) else {
        return Err(Stop::NoSpecification);
    };
    let is_watched = settings.progress || watch.is_watched();
    let progress = GraphProgress::begin(alloc, watch, is_watched);
    let graph = graph_of(alloc, script, start, settings.max_states, &progress)?;
    let text = text_of(alloc, settings.format, script, &graph)?;
    Ok(text)
}

// The specification of the assertion, if it has one, or the implementation.
fn side_of<A: AllocHandle>(specification: bool, assertion: &Assertion<A>) -> Option<&Term<A>>
    ensures { option_map (λ t. process_of t.now) result
        ≡ side_of specification (assertion_of assertion.now) }
{
    if specification {
        assertion.property.specification()
    } else {
        Some(&assertion.implementation)
    }
}
