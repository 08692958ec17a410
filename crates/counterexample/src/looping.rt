//! Loops of divergences, with where their taus come from.

ghost use Rattle.std.specs.Prelude.{◌≡◌, ◌<◌, ◌+◌, ◌∷◌, ◌++◌, [], length, map, replicate, slice_get, IfOk, Some};
ghost use Rattle.theory_syntax.specs.Process.{Process};
ghost use Rattle.theory_syntax.specs.Value.{Tau};
ghost use Rattle.theory_explanation.specs.Counterexamples.{AreOriginsAlong};
ghost use Rattle.csp_term.specs.Script.{script_of};
ghost use Rattle.csp_term.specs.Term.{process_of};
ghost use Rattle.counterexample.specs.Counterexample.{ComesBack, IsLoopOf, origins_listed};

use crate::origins::lent;
use csp_moves::{Origin, origin_of_step};
use csp_replay::Lasso;
use csp_term::{Action, AllocHandle, Memory, Script, Term};

/// The taus that go on for ever from a state.
#[derive(Drop)]
pub struct Looping<A: AllocHandle> {
    /// The states that they lead through, that state at first.
    pub states: Vec<Term<A>, A>,
    /// The place of the one that the last tau leads back to.
    pub back: usize,
    /// Where each tau comes from.
    pub origins: Vec<Option<Origin<A>>, A>,
}

/// The lasso, if there is one, with where its taus come from.
pub(crate) fn looping_of<A: AllocHandle>(
    alloc: A,
    script: &Script<A>,
    lasso: Option<Lasso<A>>,
) -> Result<Option<Looping<A>>, Memory>
    requires { ComesBack lasso }
    ensures { IfOk result (IsLoopOf (script_of script.now) lasso) }
{
    let Some(lasso) = lasso else {
        return Ok(None);
    };
    let back = lasso.back;
    let origins = origins_round(alloc, script, &lasso.states, back)?;
    Ok(Some(Looping {
        states: lasso.states,
        back,
        origins,
    }))
}

// Where the tau from each of the states to the next one comes from, and from the last one back to the one at the place.
fn origins_round<A: AllocHandle>(
    alloc: A,
    script: &Script<A>,
    states: &[Term<A>],
    back: usize,
) -> Result<Vec<Option<Origin<A>>, A>, Memory>
    requires { back < length states.now }
    ensures { IfOk result (λ origins. (again : Process)
        → slice_get (map process_of states.now) back ≡ Some again
        → AreOriginsAlong (script_of script.now) (replicate (length states.now) Tau)
        (map process_of states.now ++ again ∷ []) (origins_listed origins.items)) }
{
    let parts = script.parts();
    let mut all = Vec::new(alloc);
    for place in 0..states.len() {
        let tau = Action::Tau;
        let before = &states[place];
        let behind = next_round(states, place, back);
        let origin = origin_of_step(alloc, parts, before, lent(&tau), behind)?;
        all.push(origin)?;
    }
    Ok(all)
}

// The state behind the one at the place, and behind the last one that at `back`.
fn next_round<A: AllocHandle>(states: &[Term<A>], place: usize, back: usize) -> &Term<A>
    requires back { back < length states.now }
    requires place { place < length states.now }
    ensures { (again : Process) → slice_get (map process_of states.now) back ≡ Some again
        → slice_get (map process_of states.now ++ again ∷ []) (place + 1)
        ≡ Some (process_of result.now) }
{
    match states.get(place + 1) {
        Some(next) => next,
        None => &states[back],
    }
}
