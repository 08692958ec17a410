//! Runs that are spread.

ghost use Rattle.std.specs.Prelude.{◌≡◌, length, map, suc, IfOk, IfSome};
ghost use Rattle.theory_semantics.specs.Kinds.Scripts.{IsTermOf};
ghost use Rattle.csp_value.specs.Action.{action_of};
ghost use Rattle.csp_term.specs.Script.{script_of};
ghost use Rattle.csp_term.specs.Term.{process_of};
ghost use Rattle.spread_runs.specs.Spread.{SpreadsRun, SpreadsWalk};

use crate::walk::{Walk, step_to, taus_to, walk_at};
use csp_term::{Action, AllocHandle, Memory, Script, Term};

/// A run by tau that is told in place of one at once.
#[derive(Drop)]
pub struct SpreadRun<A: AllocHandle> {
    /// The actions.
    pub path: Vec<Action<A>, A>,
    /// The states: one before each action, and one at the end.
    pub states: Vec<Term<A>, A>,
}

/// A run of `written` from the term that spreads the one by the path through the states, which is one of `script`: the
/// same script with its names unfolded at once. `None` says that none is found, and `Memory` that there is no room to
/// look for it.
pub fn spread_run<A: AllocHandle>(
    alloc: A,
    script: &Script<A>,
    written: &Script<A>,
    start: &Term<A>,
    path: &[Action<A>],
    states: &[Term<A>],
) -> Result<Option<SpreadRun<A>>, Memory>
    requires closed { IsTermOf (script_of written.now) (process_of start.now) }
    requires even { length states.now ≡ suc (length path.now) }
    ensures { IfOk result (λ found. IfSome found (SpreadsRun (script_of written.now)
        (process_of start.now) (map action_of path.now) (map process_of states.now))) }
{
    let found = walk_along(alloc, script, written, start, path, states)?;
    let Some(walk) = found else {
        return Ok(None);
    };
    let Walk { path, behind, here } = walk;
    let mut states = behind;
    states.push(here)?;
    Ok(Some(SpreadRun { path, states }))
}

// The same as a walk.
fn walk_along<A: AllocHandle>(
    alloc: A,
    script: &Script<A>,
    written: &Script<A>,
    start: &Term<A>,
    path: &[Action<A>],
    states: &[Term<A>],
) -> Result<Option<Walk<A>>, Memory>
    requires closed { IsTermOf (script_of written.now) (process_of start.now) }
    requires even { length states.now ≡ suc (length path.now) }
    ensures { IfOk result (λ found. IfSome found (SpreadsWalk (script_of written.now)
        (process_of start.now) (map action_of path.now) (map process_of states.now))) }
{
    let begun = walk_at(alloc, start)?;
    let found = taus_to(alloc, script, written, begun, &states[0])?;
    let Some(mut walk) = found else {
        return Ok(None);
    };
    for (place, action) in path.iter().enumerate() {
        let target = &states[place + 1];
        let next = step_to(alloc, script, written, walk, action, target)?;
        let Some(gone) = next else {
            return Ok(None);
        };
        walk = gone;
    }
    Ok(Some(walk))
}
