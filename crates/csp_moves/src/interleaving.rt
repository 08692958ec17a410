//! The ways of `P ||| Q`.

ghost use Rattle.std.specs.Prelude.{IfOk};
ghost use Rattle.theory_syntax.specs.Process.{Interleaving};
ghost use Rattle.csp_term.specs.Term.{process_of};
ghost use Rattle.csp_moves.specs.Way.{AreFound, lent_action};

use crate::operator::{Joint, Sides};
use crate::together::{Freedom, parallel_ways};
use crate::way::{LentAction, Way};
use csp_term::{AllocHandle, Memory, ProcessOperator, Term};

/// The ways in which `P ||| Q` may do the step. `Memory` says that there is no room for them.
pub fn interleaving_ways<'t, A: AllocHandle>(
    alloc: A,
    left: &'t Term<A>,
    right: &'t Term<A>,
    action: LentAction<'t, A>,
    target: &'t Term<A>,
) -> Result<Vec<Way<'t, A>, A>, Memory>
    ensures { IfOk result (AreFound (Interleaving (process_of left.now) (process_of right.now))
        (lent_action action.entry) (process_of target.now)) }
{
    let sides = Sides {
        operator: Joint::Binary(ProcessOperator::Interleaving),
        left,
        right,
    };
    let freedom = Freedom {
        left: true,
        right: true,
        shared: false,
    };
    parallel_ways(alloc, sides, freedom, action, target)
}
