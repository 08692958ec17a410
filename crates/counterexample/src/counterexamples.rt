//! Violations with the states that lead to them.

ghost use Rattle.std.specs.Prelude.{◌≡◌, map, IfOk, IfSome};
ghost use Rattle.theory_semantics.specs.Kinds.Scripts.{IsTermOf};
ghost use Rattle.theory_search.specs.Terms.{IsAssertionOf};
ghost use Rattle.csp_term.specs.Script.{assertion_of, script_of};
ghost use Rattle.csp_term.specs.Term.{process_of};
ghost use Rattle.verdict.specs.Outcome.{violation_of};
ghost use Rattle.counterexample.specs.Counterexample as told;

use crate::counterparts::{Counterpart, counterpart_for};
use crate::looping::{Looping, looping_of};
use crate::origins::origins_along;
use crate::sides::Sides;
use crate::waiting::{Waiting, waiting_at};
use csp_moves::Origin;
use csp_replay::{Lasso, Replay, replay_of};
use csp_term::{AllocHandle, Assertion, Memory, Script, Term};
use verdict::Shown;

/// The states that lead to a violation, where the steps between them come from, and what the specification has beside them.
#[derive(Drop)]
pub struct Counterexample<A: AllocHandle> {
    /// The states of the implementation: one before each action of the path, and one at its end.
    pub states: Vec<Term<A>, A>,
    /// Where each step between them comes from.
    pub origins: Vec<Option<Origin<A>>, A>,
    /// What the specification has along the path. An assertion of deadlock or divergence has none.
    pub counterpart: Option<Counterpart<A>>,
    /// The loop that a divergence goes on by from the last state.
    pub looping: Option<Looping<A>>,
    /// The parts of the last state, where that waits.
    pub waiting: Vec<Waiting<A>, A>,
}

/// What comes of a violation.
#[derive(Drop)]
pub enum Replayed<A: AllocHandle> {
    /// The states that lead to it.
    Counterexample(Counterexample<A>),
    /// No run by the path ends as is shown.
    Nowhere,
    /// Behind the path of a divergence taus lead to more states than were to be looked at.
    TooMany,
}

/// The states on the way of a violation of the assertion between terms of the script, where each step comes from, and
/// what the specification has along its path, or that it has more than `most` states after one of its beginnings. The loop
/// of a divergence is looked for among `reach` states. `Memory` says that there is no room to tell.
pub fn counterexample_of<A: AllocHandle>(
    alloc: A,
    script: &Script<A>,
    assertion: &Assertion<A>,
    shown: &Shown<A>,
    most: usize,
    reach: usize,
) -> Result<Replayed<A>, Memory>
    requires terms { IsAssertionOf (script_of script.now) (assertion_of assertion.now) }
    ensures { IfOk result (told.TellsReplayed (script_of script.now) (assertion_of assertion.now)
        (violation_of shown.now) most reach) }
{
    let start = &assertion.implementation;
    let replay = replay_of(alloc, script, start, shown, reach)?;
    match replay {
        Replay::States(states, lasso) => {
            let sides = Sides {
                script,
                start,
                other: script,
                specification: assertion.property.specification(),
            };
            let found = along(alloc, &sides, shown, most, states, lasso)?;
            Ok(Replayed::Counterexample(found))
        }
        Replay::Nowhere => Ok(Replayed::Nowhere),
        Replay::TooMany => Ok(Replayed::TooMany),
    }
}

/// What is told of the violation by the states of a replay from the start, and the lasso at its end, if it diverges.
pub(crate) fn along<A: AllocHandle>(
    alloc: A,
    sides: &Sides<'_, A>,
    shown: &Shown<A>,
    most: usize,
    states: Vec<Term<A>, A>,
    lasso: Option<Lasso<A>>,
) -> Result<Counterexample<A>, Memory>
    requires start { IsTermOf (script_of sides.now.script.now) (process_of sides.now.start.now) }
    requires specification { IfSome (told.specification_in sides.now.specification)
        (IsTermOf (script_of sides.now.other.now)) }
    requires replay { told.IsReplayed (script_of sides.now.script.now)
        (process_of sides.now.start.now) (violation_of shown.now) (map process_of states.items)
        lasso }
    ensures told { IfOk result (λ found. told.IsToldBy sides.now (violation_of shown.now) most
        (told.counterexample_of found)) }
    ensures states { IfOk result (λ found. found.states ≡ states) }
{
    let script = sides.script;
    let origins = origins_along(alloc, script, &shown.path, &states)?;
    let counterpart = counterpart_for(alloc, sides.other, sides.specification, &shown.path, most)?;
    let looping = looping_of(alloc, script, lasso)?;
    let waiting = waiting_at(alloc, script, &shown.evidence, &states[shown.path.len()])?;
    Ok(Counterexample {
        states,
        origins,
        counterpart,
        looping,
        waiting,
    })
}
