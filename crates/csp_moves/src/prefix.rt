//! The ways of `c!e?x -> P`.

ghost use Rattle.std.specs.Prelude.{IfOk};
ghost use Rattle.theory_syntax.specs.Process.{Process, Script};
ghost use Rattle.theory_syntax.specs.Value.{Ev, Tau, Tick};
ghost use Rattle.csp_value.specs.Action.{event_of};
ghost use Rattle.csp_term.specs.Script.{script_of_parts};
ghost use Rattle.csp_term.specs.Term.{process_of};
ghost use Rattle.csp_moves.specs.Leaves.{IsPrefix};
ghost use Rattle.csp_moves.specs.Way.{AreFoundIn, lent_action};

use crate::deciding::does;
use crate::way::{LentAction, Way, no_ways, one_way};
use csp_term::{AllocHandle, Event, Memory, ScriptParts, Term};

/// The ways in which a prefix may do the step. `Memory` says that there is no room for them.
pub fn prefix_ways<'t, A: AllocHandle>(
    alloc: A,
    script: &ScriptParts<A>,
    term: &Term<A>,
    action: LentAction<'t, A>,
    target: &'t Term<A>,
) -> Result<Vec<Way<'t, A>, A>, Memory>
    requires { IsPrefix (process_of term.now) }
    ensures { IfOk result (AreFoundIn (script_of_parts script.now) (process_of term.now)
        (lent_action action.entry) (process_of target.now)) }
{
    match action {
        LentAction::Tau => by_no_event(alloc),
        LentAction::Tick => by_no_event(alloc),
        LentAction::Event(event) => by_event(alloc, script, term, event, target),
    }
}

/// It does nothing but events.
fn by_no_event<'t, A: AllocHandle>(alloc: A) -> Result<Vec<Way<'t, A>, A>, Memory>
    ensures tau { (s : Script) (p t : Process) → IsPrefix p → IfOk result (AreFoundIn s p Tau t) }
    ensures tick { (s : Script) (p t : Process) → IsPrefix p → IfOk result (AreFoundIn s p Tick t) }
{
    no_ways(alloc)
}

fn by_event<'t, A: AllocHandle>(
    alloc: A,
    script: &ScriptParts<A>,
    term: &Term<A>,
    event: &'t Event<A>,
    target: &'t Term<A>,
) -> Result<Vec<Way<'t, A>, A>, Memory>
    requires { IsPrefix (process_of term.now) }
    ensures { IfOk result (AreFoundIn (script_of_parts script.now) (process_of term.now)
        (Ev (event_of event.now)) (process_of target.now)) }
{
    let is_step = does(alloc, script, term, LentAction::Event(event), target)?;
    if is_step {
        return one_way(alloc, Way::Does(event));
    }
    no_ways(alloc)
}
