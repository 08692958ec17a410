//! The ways of `P [S || T] Q`.

ghost use Rattle.std.specs.Prelude.{IfOk, not, ◌&&◌};
ghost use Rattle.theory_syntax.specs.Process.{AlphabetisedParallel};
ghost use Rattle.csp_events.specs.Events.{event_set_of};
ghost use Rattle.csp_term.specs.Script.{script_of_parts};
ghost use Rattle.csp_term.specs.Term.{process_of};
ghost use Rattle.csp_events.specs.Testing.{AreSorted, listed_in, test_of};
ghost use Rattle.csp_moves.specs.Parallel.{IsFreedom};
ghost use Rattle.csp_moves.specs.Way.{AreFoundIn, lent_action};

use crate::operator::{Joint, Sides};
use crate::tested::test_of_set;
use crate::together::{Freedom, parallel_ways};
use crate::way::{LentAction, Way, no_ways};
use csp_events::{EventSet, EventTest};
use csp_term::{AllocHandle, Memory, ScriptParts, Term};

/// `P [S || T] Q`
#[derive(Clone, Copy)]
pub struct Alphabetised<'t, A: AllocHandle> {
    /// The left side.
    pub left: &'t Term<A>,
    /// The events of the left side.
    pub own: &'t EventSet<A>,
    /// The events of the right side.
    pub other: &'t EventSet<A>,
    /// The right side.
    pub right: &'t Term<A>,
}

/// What each side may do of the action, where these are the tests of the left and of the right alphabet.
fn freedom_of<A: AllocHandle>(
    own: &EventTest<A>,
    other: &EventTest<A>,
    action: LentAction<'_, A>,
) -> Freedom
    requires own { AreSorted (listed_in own.now) }
    requires other { AreSorted (listed_in other.now) }
    ensures { IsFreedom (λ e. test_of own.now e && not (test_of other.now e))
        (λ e. test_of other.now e && not (test_of own.now e))
        (λ e. test_of own.now e && test_of other.now e) (lent_action action.entry) result }
{
    match action {
        LentAction::Tau => Freedom::none(),
        LentAction::Tick => Freedom::none(),
        LentAction::Event(event) => {
            let in_left = own.holds(event);
            let in_right = other.holds(event);
            Freedom {
                left: in_left && !in_right,
                right: in_right && !in_left,
                shared: in_left && in_right,
            }
        }
    }
}

/// The ways in which `P [S || T] Q` may do the step. There is none where a set has no value. `Memory` says that there
/// is no room for them.
pub fn alphabetised_ways<'t, A: AllocHandle>(
    alloc: A,
    script: &ScriptParts<A>,
    process: Alphabetised<'t, A>,
    action: LentAction<'t, A>,
    target: &'t Term<A>,
) -> Result<Vec<Way<'t, A>, A>, Memory>
    ensures { IfOk result (AreFoundIn (script_of_parts script.now)
        (AlphabetisedParallel (process_of process.entry.left.now)
        (event_set_of process.entry.own.now) (event_set_of process.entry.other.now)
        (process_of process.entry.right.now)) (lent_action action.entry) (process_of target.now)) }
{
    let first = test_of_set(alloc, script, process.own)?;
    let Some(own) = first else {
        return no_ways(alloc);
    };
    let second = test_of_set(alloc, script, process.other)?;
    let Some(other) = second else {
        return no_ways(alloc);
    };
    let freedom = freedom_of(&own, &other, action);
    drop(own);
    drop(other);
    let sides = Sides {
        operator: Joint::Alphabetised(process.own, process.other),
        left: process.left,
        right: process.right,
    };
    parallel_ways(alloc, sides, freedom, action, target)
}
