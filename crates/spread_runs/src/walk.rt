//! Runs in the making, by the script as it is written.

ghost use Rattle.std.specs.Prelude.{IfOk, IfSome};
ghost use Rattle.theory_syntax.specs.Value.{Tau};
ghost use Rattle.theory_semantics.specs.Kinds.Scripts.{IsTermOf};
ghost use Rattle.csp_value.specs.Action.{action_of};
ghost use Rattle.csp_term.specs.Script.{script_of};
ghost use Rattle.csp_term.specs.Term.{process_of};
ghost use Rattle.spread_runs.specs.Walk.{GoesTo, GoesToBy, IsAt, IsOneOn};

use crate::toward::term_toward;
use csp_term::laws::equal_terms;
use csp_term::{Action, AllocHandle, Memory, Script, Term};

/// A run as far as it is told.
#[derive(Drop)]
pub(crate) struct Walk<A: AllocHandle> {
    /// The actions.
    pub(crate) path: Vec<Action<A>, A>,
    /// The states before them.
    pub(crate) behind: Vec<Term<A>, A>,
    /// The state that they lead to.
    pub(crate) here: Term<A>,
}

/// How many taus are looked for behind a step, at most. Each unfolds a name, and states have fewer parts.
const MOST_TAUS: u32 = 1_000;

/// How many nodes a term within the limits has, at most.
const MOST_NODES: u32 = 2_000;

/// The walk that stands at the term.
pub(crate) fn walk_at<A: AllocHandle>(alloc: A, term: &Term<A>) -> Result<Walk<A>, Memory>
    ensures { IfOk result (IsAt (process_of term.now)) }
{
    let here = term.try_copy(alloc)?;
    Ok(Walk {
        path: Vec::new(alloc),
        behind: Vec::new(alloc),
        here,
    })
}

/// The walk, gone on by the action to the term.
pub(crate) fn one_on<A: AllocHandle>(
    walk: Walk<A>,
    action: Action<A>,
    next: Term<A>,
) -> Result<Walk<A>, Memory>
    ensures { IfOk result (IsOneOn (action_of action) (process_of next) walk) }
{
    let Walk {
        mut path,
        mut behind,
        here,
    } = walk;
    path.push(action)?;
    behind.push(here)?;
    Ok(Walk {
        path,
        behind,
        here: next,
    })
}

/// The walk, gone on by taus to the target, or `None` where none are found.
pub(crate) fn taus_to<A: AllocHandle>(
    alloc: A,
    script: &Script<A>,
    written: &Script<A>,
    mut walk: Walk<A>,
    target: &Term<A>,
) -> Result<Option<Walk<A>>, Memory>
    requires closed { IsTermOf (script_of written.now) (process_of walk.here) }
    ensures { IfOk result (λ found. IfSome found (GoesTo (script_of written.now)
        (process_of target.now) walk)) }
{
    for _ in 0..MOST_TAUS {
        if equal_terms(&walk.here, target) {
            return Ok(Some(walk));
        }
        let tau = Action::Tau;
        let found = term_toward(alloc, script, written, &walk.here, &tau, target)?;
        let Some(next) = found else {
            return Ok(None);
        };
        if is_larger(&next, target) {
            return Ok(None);
        }
        walk = one_on(walk, tau, next)?;
    }
    Ok(None)
}

// Whether the term has more nodes than the other one, so that no names that are unfolded at once lead to that: these make no
// term smaller.
fn is_larger<A: AllocHandle>(term: &Term<A>, other: &Term<A>) -> bool {
    match other.room_left(MOST_NODES) {
        Some(rest) => term.room_left(MOST_NODES - rest).is_none(),
        None => false,
    }
}

/// The walk, gone on by a step by the action, and taus behind it, to the target, or `None` where none are found.
pub(crate) fn step_to<A: AllocHandle>(
    alloc: A,
    script: &Script<A>,
    written: &Script<A>,
    walk: Walk<A>,
    action: &Action<A>,
    target: &Term<A>,
) -> Result<Option<Walk<A>>, Memory>
    requires closed { IsTermOf (script_of written.now) (process_of walk.here) }
    ensures { IfOk result (λ found. IfSome found (GoesToBy (script_of written.now)
        (action_of action.now) (process_of target.now) walk)) }
{
    let found = term_toward(alloc, script, written, &walk.here, action, target)?;
    let Some(next) = found else {
        return Ok(None);
    };
    let done = action.try_copy(alloc)?;
    let gone = one_on(walk, done, next)?;
    taus_to(alloc, script, written, gone, target)
}
