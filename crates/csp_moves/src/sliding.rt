//! The ways of `P [> Q`.

ghost use Rattle.std.specs.Prelude.{IfOk, IsTrue};
ghost use Rattle.theory_syntax.specs.Process.{Script, SlidingChoice};
ghost use Rattle.theory_syntax.specs.Value.{Tau};
ghost use Rattle.theory_semantics.specs.Meaning.Transitions.{IsVisible};
ghost use Rattle.theory_semantics.specs.Meaning.Limits.{fits};
ghost use Rattle.csp_term.specs.Script.{script_of_parts};
ghost use Rattle.csp_term.specs.Term.{process_of};
ghost use Rattle.csp_moves.specs.Way.{AreFoundIn, lent_action};

use crate::operator::{Joint, left_of};
use crate::passage::Side;
use crate::settled::leads_to;
use crate::way::{LentAction, Way, one_way, through_branch, two_ways};
use csp_term::{AllocHandle, Memory, ScriptParts, Term};

/// The ways in which `P [> Q` may do the step. `Memory` says that there is no room for them.
pub fn sliding_ways<'t, A: AllocHandle>(
    alloc: A,
    script: &ScriptParts<A>,
    left: &'t Term<A>,
    right: &'t Term<A>,
    action: LentAction<'t, A>,
    target: &'t Term<A>,
) -> Result<Vec<Way<'t, A>, A>, Memory>
    requires { IsTrue (fits (process_of target.now)) }
    ensures { IfOk result (AreFoundIn (script_of_parts script.now)
        (SlidingChoice (process_of left.now) (process_of right.now)) (lent_action action.entry)
        (process_of target.now)) }
{
    match action {
        LentAction::Tau => by_tau(alloc, script, left, right, target),
        LentAction::Tick => by_visible(alloc, left, right, action, target),
        LentAction::Event(_) => by_visible(alloc, left, right, action, target),
    }
}

/// A tau of the left side keeps the choice, and one more leads to the right side, settled.
fn by_tau<'t, A: AllocHandle>(
    alloc: A,
    script: &ScriptParts<A>,
    left: &'t Term<A>,
    right: &'t Term<A>,
    target: &'t Term<A>,
) -> Result<Vec<Way<'t, A>, A>, Memory>
    requires { IsTrue (fits (process_of target.now)) }
    ensures { IfOk result (AreFoundIn (script_of_parts script.now)
        (SlidingChoice (process_of left.now) (process_of right.now)) Tau (process_of target.now)) }
{
    let operator = Joint::Sliding;
    let by_left = through_branch(
        Side::Left,
        left,
        LentAction::Tau,
        left_of(&operator, right, target),
    );
    if leads_to(alloc, script, right, target)? {
        return two_ways(alloc, by_left, Way::Slides);
    }
    one_way(alloc, by_left)
}

/// A visible action of the left side makes the choice.
fn by_visible<'t, A: AllocHandle>(
    alloc: A,
    left: &'t Term<A>,
    right: &'t Term<A>,
    action: LentAction<'t, A>,
    target: &'t Term<A>,
) -> Result<Vec<Way<'t, A>, A>, Memory>
    requires { IsVisible (lent_action action) }
    ensures { (s : Script)
        → IfOk result (AreFoundIn s (SlidingChoice (process_of left.now) (process_of right.now))
        (lent_action action.entry) (process_of target.now)) }
{
    one_way(
        alloc,
        through_branch(Side::Left, left, action, Some(target)),
    )
}
