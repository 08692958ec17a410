//! The ways of `P(e, ..)`.

ghost use Rattle.std.specs.Prelude.{IfOk};
ghost use Rattle.csp_term.specs.Script.{script_of_parts};
ghost use Rattle.csp_term.specs.Term.{process_of};
ghost use Rattle.csp_moves.specs.Leaves.{IsCallOf};
ghost use Rattle.csp_moves.specs.Way.{AreFoundIn, lent_action};

use crate::deciding::does;
use crate::way::{LentAction, Way, no_ways, one_way};
use csp_term::{AllocHandle, EquationId, Memory, ScriptParts, Term};

/// The ways in which a call of the equation may do the step. `Memory` says that there is no room for them.
pub fn call_ways<'t, A: AllocHandle>(
    alloc: A,
    script: &ScriptParts<A>,
    term: &Term<A>,
    equation: EquationId,
    action: LentAction<'t, A>,
    target: &'t Term<A>,
) -> Result<Vec<Way<'t, A>, A>, Memory>
    requires { IsCallOf equation.0 (process_of term.now) }
    ensures { IfOk result (AreFoundIn (script_of_parts script.now) (process_of term.now)
        (lent_action action.entry) (process_of target.now)) }
{
    let is_step = does(alloc, script, term, action, target)?;
    if is_step {
        return one_way(alloc, Way::Unfolds(equation));
    }
    no_ways(alloc)
}
