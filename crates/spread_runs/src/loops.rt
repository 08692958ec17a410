//! Loops that are spread.

ghost use Rattle.std.specs.Prelude.{◌≡◌, ◌<◌, length, map, replicate, slice_get, Some, IfOk, IfSome};
ghost use Rattle.theory_syntax.specs.Value.{Tau};
ghost use Rattle.theory_syntax.specs.Process.{Process};
ghost use Rattle.theory_semantics.specs.Kinds.Scripts.{IsTermOf};
ghost use Rattle.csp_value.specs.Action.{action_of};
ghost use Rattle.csp_term.specs.Script.{script_of};
ghost use Rattle.csp_term.specs.Term.{process_of};
ghost use Rattle.spread_runs.specs.Spread.{SpreadsLoop};
ghost use Rattle.spread_runs.specs.Rounds.{ComeRound};

use crate::runs::{SpreadRun, spread_run};
use csp_term::laws::equal_terms;
use csp_term::{Action, AllocHandle, Memory, Script, Term};

/// A loop by tau that is told in place of one at once.
#[derive(Drop)]
pub struct SpreadLoop<A: AllocHandle> {
    /// The states that taus lead through.
    pub states: Vec<Term<A>, A>,
    /// The place of the one that the last tau leads back to.
    pub back: usize,
}

/// A loop of `written` that spreads the one through the states and back to that at the place, which is one of `script`: the
/// same script with its names unfolded at once. `None` says that none is found, and `Memory` that there is no room to
/// look for it.
pub fn spread_loop<A: AllocHandle>(
    alloc: A,
    script: &Script<A>,
    written: &Script<A>,
    states: &[Term<A>],
    back: usize,
) -> Result<Option<SpreadLoop<A>>, Memory>
    requires closed { (t : Process) → slice_get (map process_of states.now) 0 ≡ Some t
        → IsTermOf (script_of written.now) t }
    requires back { back < length states.now }
    ensures { IfOk result (λ found. IfSome found (SpreadsLoop (script_of written.now)
        (map process_of states.now) back)) }
{
    let round = states_round(alloc, states, back)?;
    let path = taus(alloc, states.len())?;
    let found = spread_run(alloc, script, written, &states[0], &path, &round)?;
    let Some(spread) = found else {
        return Ok(None);
    };
    Ok(round_of(spread))
}

// The states, and behind them the one at the place.
fn states_round<A: AllocHandle>(
    alloc: A,
    states: &[Term<A>],
    back: usize,
) -> Result<Vec<Term<A>, A>, Memory>
    requires { back < length states.now }
    ensures { IfOk result (λ round. ComeRound (map process_of states.now) back
        (map process_of round.items)) }
{
    let mut round = Vec::new(alloc);
    for state in states {
        let copy = state.try_copy(alloc)?;
        round.push(copy)?;
    }
    let again = states[back].try_copy(alloc)?;
    round.push(again)?;
    Ok(round)
}

// So many taus.
fn taus<A: AllocHandle>(alloc: A, count: usize) -> Result<Vec<Action<A>, A>, Memory>
    ensures { IfOk result (λ taus. map action_of taus.items ≡ replicate count Tau) }
{
    let mut taus = Vec::new(alloc);
    for _ in 0..count {
        taus.push(Action::Tau)?;
    }
    Ok(taus)
}

// The run without its last state, which is one of those before it, or `None` where it is none.
fn round_of<A: AllocHandle>(run: SpreadRun<A>) -> Option<SpreadLoop<A>>
    ensures { IfSome result (λ l. ComeRound (map process_of l.states.items) l.back
        (map process_of run.states.items)) }
{
    let SpreadRun { path, mut states } = run;
    drop(path);
    let last = states.pop();
    let Some(again) = last else {
        return None;
    };
    let found = place_of(&states, &again);
    let Some(back) = found else {
        return None;
    };
    Some(SpreadLoop { states, back })
}

// The place of the first of the states that is the term, if one is.
fn place_of<A: AllocHandle>(states: &[Term<A>], term: &Term<A>) -> Option<usize>
    ensures { IfSome result (λ k. slice_get (map process_of states.now) k
        ≡ Some (process_of term.now)) }
{
    for place in 0..states.len() {
        if equal_terms(&states[place], term) {
            return Some(place);
        }
    }
    None
}
