//! The states on the way of a violation.

ghost use Rattle.std.specs.Prelude.{IfOk};
ghost use Rattle.theory_semantics.specs.Kinds.Scripts.{IsTermOf};
ghost use Rattle.csp_term.specs.Script.{script_of};
ghost use Rattle.csp_term.specs.Term.{process_of};
ghost use Rattle.verdict.specs.Outcome.{violation_of};
ghost use Rattle.csp_replay.specs.Replays.{TellsReplay};

use crate::ending::{Ending, ending_of};
use crate::lasso::Lasso;
use crate::layers::layers_of;
use crate::way::way_to;
use csp_term::{AllocHandle, Memory, Script, Term};
use verdict::Shown;

/// What a violation's path leads through.
#[derive(Drop)]
pub enum Replay<A: AllocHandle> {
    /// The states on its way: one before each action, and one at its end, which shows the evidence; and where that
    /// diverges, a lasso from it.
    States(Vec<Term<A>, A>, Option<Lasso<A>>),
    /// No run by the path ends so.
    Nowhere,
    /// Behind the path of a divergence taus lead to more states than were to be looked at.
    TooMany,
}

/// The states on the way of the violation, from the term of the script at its start. Whether a state diverges is looked
/// for among `reach` states that taus lead to. `Memory` says that there is no room to tell.
pub fn replay_of<A: AllocHandle>(
    alloc: A,
    script: &Script<A>,
    start: &Term<A>,
    shown: &Shown<A>,
    reach: usize,
) -> Result<Replay<A>, Memory>
    requires closed { IsTermOf (script_of script.now) (process_of start.now) }
    ensures { IfOk result (TellsReplay (script_of script.now) (process_of start.now)
        (violation_of shown.now) reach) }
{
    let layers = layers_of(alloc, script, start, &shown.path)?;
    match ending_of(alloc, script, &layers.last, &shown.evidence, reach)? {
        Ending::At(end, lasso) => {
            let states = way_to(alloc, layers, end)?;
            Ok(Replay::States(states, lasso))
        }
        Ending::Nowhere => Ok(Replay::Nowhere),
        Ending::TooMany => Ok(Replay::TooMany),
    }
}
