//! The ways of `STOP`, of `SKIP` and of what has ended.

ghost use Rattle.std.specs.Prelude.{◌≡◌, ◌↔◌, IfOk, IsTrue};
ghost use Rattle.theory_syntax.specs.Process.{Omega, Process, Skip, Stop};
ghost use Rattle.theory_syntax.specs.Value.{Tick};
ghost use Rattle.theory_syntax.specs.Value as pure;
ghost use Rattle.csp_term.specs.Term.{process_of};
ghost use Rattle.csp_moves.specs.Way.{AreFound, lent_action};

use crate::way::{LentAction, Way, no_ways, one_way};
use csp_term::{AllocHandle, Memory, Term};

/// The ways in which `STOP`, or what has ended, may do a step: there is none. `Memory` says that there is no room for
/// them.
pub fn idle_ways<'t, A: AllocHandle>(alloc: A) -> Result<Vec<Way<'t, A>, A>, Memory>
    ensures stop { (x : pure.Action) (t : Process) → IfOk result (AreFound Stop x t) }
    ensures ended { (x : pure.Action) (t : Process) → IfOk result (AreFound Omega x t) }
{
    no_ways(alloc)
}

/// Whether the step is that of `SKIP`.
fn ends<A: AllocHandle>(action: LentAction<'_, A>, target: &Term<A>) -> bool
    ensures { IsTrue result
        ↔ ((lent_action action.entry ≡ Tick) × (process_of target.now ≡ Omega)) }
{
    match action {
        LentAction::Tick => target.is_omega(),
        LentAction::Tau => false,
        LentAction::Event(_) => false,
    }
}

/// The ways in which `SKIP` may do the step. `Memory` says that there is no room for them.
pub fn skip_ways<'t, A: AllocHandle>(
    alloc: A,
    action: LentAction<'t, A>,
    target: &'t Term<A>,
) -> Result<Vec<Way<'t, A>, A>, Memory>
    ensures { IfOk result (AreFound Skip (lent_action action.entry) (process_of target.now)) }
{
    if ends(action, target) {
        return one_way(alloc, Way::Ends);
    }
    no_ways(alloc)
}
