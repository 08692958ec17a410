//! The test that a set of events is.

ghost use Rattle.std.specs.Prelude.{IfOk};
ghost use Rattle.theory_semantics.specs.Meaning.Events.{event_test};
ghost use Rattle.csp_events.specs.Events.{event_set_of};
ghost use Rattle.csp_term.specs.Script.{script_of_parts};
ghost use Rattle.csp_moves.specs.Tested.{IsTestIfAny};

use csp_events::{EventSet, EventTest};
use csp_expression::NoValue;
use csp_term::{AllocHandle, Memory, ScriptParts};

/// The test that the set is, if it is one. `Memory` says that there is no room for it.
pub(crate) fn test_of_set<A: AllocHandle>(
    alloc: A,
    script: &ScriptParts<A>,
    set: &EventSet<A>,
) -> Result<Option<EventTest<A>>, Memory>
    ensures { IfOk result (λ found. IsTestIfAny found
        (event_test (script_of_parts script.now) (event_set_of set.now))) }
{
    match script.event_test(alloc, set) {
        Ok(test) => Ok(Some(test)),
        Err(NoValue::Memory) => Err(Memory),
        Err(NoValue::Cause(_)) => Ok(None),
    }
}
