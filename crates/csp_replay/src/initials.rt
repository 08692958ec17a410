//! What states can do.

ghost use Rattle.std.specs.Prelude.{map, IfOk, OnOk};
ghost use Rattle.theory_runs.specs.Gathering.{Gathers};
ghost use Rattle.theory_runs.specs.Initials.{AreInitials, IsInitialBy};
ghost use Rattle.theory_runs.specs.Layers.{AreTermsOf};
ghost use Rattle.csp_value.specs.Action.{action_of};
ghost use Rattle.csp_term.specs.Script.{script_of};
ghost use Rattle.csp_term.specs.Term.{process_of};
ghost use Rattle.csp_fire.specs.Form.{step_of};

use crate::firing::steps_of_term;
use csp_fire::Step;
use csp_term::{Action, AllocHandle, Memory, Script, Term};

/// The events, and tick, that some of the states can do, which are terms of the script: sorted, each once. `Memory` says
/// that there is no room to tell.
pub fn initials_of<A: AllocHandle>(
    alloc: A,
    script: &Script<A>,
    states: &[Term<A>],
) -> Result<Vec<Action<A>, A>, Memory>
    requires closed { AreTermsOf (script_of script.now) (map process_of states.now) }
    ensures { IfOk result (λ xs. AreInitials (script_of script.now) (map process_of states.now)
        (map action_of xs.items)) }
{
    let mut initials = Vec::new(alloc);
    for state in states {
        let steps = steps_of_term(alloc, script, state)?;
        add_initials(alloc, &mut initials, &steps)?;
    }
    initials.sort_unstable();
    initials.dedup();
    Ok(initials)
}

/// Adds the events, and tick, that there are steps by.
fn add_initials<A: AllocHandle>(
    alloc: A,
    initials: &mut Vec<Action<A>, A>,
    steps: &[Step<A>],
) -> Result<(), Memory>
    ensures { OnOk result (Gathers (map action_of initials.old.items)
        (IsInitialBy (map step_of steps.now)) (map action_of initials.new.items)) }
{
    for step in steps {
        if let Action::Tau = step.action {
            continue;
        }
        initials.push(step.action.try_copy(alloc)?)?;
    }
    Ok(())
}
