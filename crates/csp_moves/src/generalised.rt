//! The ways of `P [| S |] Q`.

ghost use Rattle.std.specs.Prelude.{IfOk, not};
ghost use Rattle.theory_syntax.specs.Process.{GeneralisedParallel};
ghost use Rattle.csp_events.specs.Events.{event_set_of};
ghost use Rattle.csp_term.specs.Script.{script_of_parts};
ghost use Rattle.csp_term.specs.Term.{process_of};
ghost use Rattle.csp_events.specs.Testing.{AreSorted, listed_in, test_of};
ghost use Rattle.csp_moves.specs.Parallel.{IsFreedom};
ghost use Rattle.csp_moves.specs.Way.{AreFoundIn, lent_action};

use crate::operator::{Joint, Sides};
use crate::tested::test_of_set;
use crate::together::{Freedom, parallel_ways};
use crate::way::{LentAction, Way, no_ways};
use csp_events::{EventSet, EventTest};
use csp_term::{AllocHandle, Memory, ScriptParts, Term};

/// `P [| S |] Q`
#[derive(Clone, Copy)]
pub struct Generalised<'t, A: AllocHandle> {
    /// The left side.
    pub left: &'t Term<A>,
    /// The events that both sides do together.
    pub shared: &'t EventSet<A>,
    /// The right side.
    pub right: &'t Term<A>,
}

/// What each side may do of the action, where the events that this test passes are shared.
fn freedom_of<A: AllocHandle>(test: &EventTest<A>, action: LentAction<'_, A>) -> Freedom
    requires { AreSorted (listed_in test.now) }
    ensures { IsFreedom (λ e. not (test_of test.now e)) (λ e. not (test_of test.now e))
        (test_of test.now) (lent_action action.entry) result }
{
    match action {
        LentAction::Tau => Freedom::none(),
        LentAction::Tick => Freedom::none(),
        LentAction::Event(event) => {
            let shared = test.holds(event);
            Freedom {
                left: !shared,
                right: !shared,
                shared,
            }
        }
    }
}

/// The ways in which `P [| S |] Q` may do the step. There is none where the set has no value. `Memory` says that there
/// is no room for them.
pub fn generalised_ways<'t, A: AllocHandle>(
    alloc: A,
    script: &ScriptParts<A>,
    process: Generalised<'t, A>,
    action: LentAction<'t, A>,
    target: &'t Term<A>,
) -> Result<Vec<Way<'t, A>, A>, Memory>
    ensures { IfOk result (AreFoundIn (script_of_parts script.now)
        (GeneralisedParallel (process_of process.entry.left.now)
        (event_set_of process.entry.shared.now) (process_of process.entry.right.now))
        (lent_action action.entry) (process_of target.now)) }
{
    let found = test_of_set(alloc, script, process.shared)?;
    let Some(test) = found else {
        return no_ways(alloc);
    };
    let freedom = freedom_of(&test, action);
    drop(test);
    let sides = Sides {
        operator: Joint::Generalised(process.shared),
        left: process.left,
        right: process.right,
    };
    parallel_ways(alloc, sides, freedom, action, target)
}
