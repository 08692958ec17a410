//! Events that are written in a script, by their numbers.

ghost use Rattle.std.specs.Prelude.{◌≡◌};
ghost use Rattle.theory_semantics.specs.Meaning.Events.{event_of as written_event};
ghost use Rattle.theory_shapes.specs.Alphabet.{alphabet as events_of_script};
ghost use Rattle.csp_events.specs.Events.{event_expression_of};
ghost use Rattle.csp_term.specs.Script.{script_of_parts};
ghost use Rattle.csp_numbers.specs.Pairs.{IsNumberIn};

use crate::alphabet::Alphabet;
use csp_events::EventExpression;
use csp_expression::NoValue;
use csp_rows::EventId;
use csp_term::{AllocHandle, ScriptParts};

/// The number of the event that is written, or the first cause for which it is none.
pub(crate) fn number_of<A: AllocHandle>(
    alloc: A,
    alphabet: &Alphabet<A>,
    script: &ScriptParts<A>,
    written: &EventExpression<A>,
) -> Result<EventId, NoValue>
    requires { alphabet.now ≡ events_of_script (script_of_parts script.now) }
    ensures { IsNumberIn alphabet.now result
        (written_event (script_of_parts script.now) (event_expression_of written.now)) }
{
    let event = script.whole_event(alloc, written)?;
    match alphabet.number(&event) {
        Some(number) => Ok(number),
        None => unreachable!(),
    }
}
