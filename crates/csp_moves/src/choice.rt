//! The ways of `P [] Q` and of `P |~| Q`.

ghost use Rattle.std.specs.Prelude.{IfOk, IsTrue};
ghost use Rattle.theory_syntax.specs.Process.{ExternalChoice, InternalChoice, Process, Script};
ghost use Rattle.theory_syntax.specs.Value as pure;
ghost use Rattle.theory_syntax.specs.Value.{Tau};
ghost use Rattle.theory_semantics.specs.Meaning.Transitions.{IsVisible};
ghost use Rattle.theory_semantics.specs.Meaning.Limits.{fits};
ghost use Rattle.theory_semantics.specs.Meaning.Unfolding.{settled};
ghost use Rattle.csp_term.specs.Script.{script_of_parts};
ghost use Rattle.csp_term.specs.Term.{process_of};
ghost use Rattle.csp_moves.specs.Choice.{IsChosen};
ghost use Rattle.csp_moves.specs.Way.{AreFound, AreFoundIn, lent_action};

use crate::operator::{Joint, left_of, right_of};
use crate::passage::Side;
use crate::settled::leads_to;
use crate::way::{LentAction, Way, no_ways, one_way, through_branch, two_ways};
use csp_term::{AllocHandle, Memory, ProcessOperator, ScriptParts, Term};

/// The ways in which `P [] Q` may do the step. `Memory` says that there is no room for them.
pub fn external_ways<'t, A: AllocHandle>(
    alloc: A,
    left: &'t Term<A>,
    right: &'t Term<A>,
    action: LentAction<'t, A>,
    target: &'t Term<A>,
) -> Result<Vec<Way<'t, A>, A>, Memory>
    ensures { IfOk result (AreFound (ExternalChoice (process_of left.now) (process_of right.now))
        (lent_action action.entry) (process_of target.now)) }
{
    match action {
        LentAction::Tau => external_by_tau(alloc, left, right, target),
        LentAction::Tick => external_by_visible(alloc, left, right, action, target),
        LentAction::Event(_) => external_by_visible(alloc, left, right, action, target),
    }
}

/// A tau of a side keeps the choice.
fn external_by_tau<'t, A: AllocHandle>(
    alloc: A,
    left: &'t Term<A>,
    right: &'t Term<A>,
    target: &'t Term<A>,
) -> Result<Vec<Way<'t, A>, A>, Memory>
    ensures { IfOk result (AreFound (ExternalChoice (process_of left.now) (process_of right.now))
        Tau (process_of target.now)) }
{
    let operator = Joint::Binary(ProcessOperator::ExternalChoice);
    let left_target = left_of(&operator, right, target);
    let right_target = right_of(&operator, left, target);
    let by_left = through_branch(Side::Left, left, LentAction::Tau, left_target);
    let by_right = through_branch(Side::Right, right, LentAction::Tau, right_target);
    two_ways(alloc, by_left, by_right)
}

/// A visible action of a side makes the choice.
fn external_by_visible<'t, A: AllocHandle>(
    alloc: A,
    left: &'t Term<A>,
    right: &'t Term<A>,
    action: LentAction<'t, A>,
    target: &'t Term<A>,
) -> Result<Vec<Way<'t, A>, A>, Memory>
    requires { IsVisible (lent_action action) }
    ensures { IfOk result (AreFound (ExternalChoice (process_of left.now) (process_of right.now))
        (lent_action action.entry) (process_of target.now)) }
{
    let by_left = through_branch(Side::Left, left, action, Some(target));
    let by_right = through_branch(Side::Right, right, action, Some(target));
    two_ways(alloc, by_left, by_right)
}

/// The ways in which `P |~| Q` may do the step. `Memory` says that there is no room for them.
pub fn internal_ways<'t, A: AllocHandle>(
    alloc: A,
    script: &ScriptParts<A>,
    left: &'t Term<A>,
    right: &'t Term<A>,
    action: LentAction<'t, A>,
    target: &'t Term<A>,
) -> Result<Vec<Way<'t, A>, A>, Memory>
    requires { IsTrue (fits (process_of target.now)) }
    ensures { IfOk result (AreFoundIn (script_of_parts script.now)
        (InternalChoice (process_of left.now) (process_of right.now)) (lent_action action.entry)
        (process_of target.now)) }
{
    match action {
        LentAction::Tau => internal_by_tau(alloc, script, left, right, target),
        LentAction::Tick => internal_by_visible(alloc),
        LentAction::Event(_) => internal_by_visible(alloc),
    }
}

/// The side that the target is, settled; the left one where it is both.
fn chosen_side<A: AllocHandle>(
    alloc: A,
    script: &ScriptParts<A>,
    left: &Term<A>,
    right: &Term<A>,
    target: &Term<A>,
) -> Result<Option<Side>, Memory>
    requires { IsTrue (fits (process_of target.now)) }
    ensures { IfOk result (IsChosen (settled (script_of_parts script.now) (process_of left.now))
        (settled (script_of_parts script.now) (process_of right.now)) (process_of target.now)) }
{
    if leads_to(alloc, script, left, target)? {
        return Ok(Some(Side::Left));
    }
    if leads_to(alloc, script, right, target)? {
        return Ok(Some(Side::Right));
    }
    Ok(None)
}

/// It becomes a side, by itself.
fn internal_by_tau<'t, A: AllocHandle>(
    alloc: A,
    script: &ScriptParts<A>,
    left: &'t Term<A>,
    right: &'t Term<A>,
    target: &'t Term<A>,
) -> Result<Vec<Way<'t, A>, A>, Memory>
    requires { IsTrue (fits (process_of target.now)) }
    ensures { IfOk result (AreFoundIn (script_of_parts script.now)
        (InternalChoice (process_of left.now) (process_of right.now)) Tau (process_of target.now)) }
{
    let chosen = chosen_side(alloc, script, left, right, target)?;
    match chosen {
        Some(side) => one_way(alloc, Way::Chooses(side)),
        None => no_ways(alloc),
    }
}

/// It does nothing that is seen.
fn internal_by_visible<'t, A: AllocHandle>(alloc: A) -> Result<Vec<Way<'t, A>, A>, Memory>
    ensures { (s : Script) (p q : Process) (x : pure.Action) (t : Process) → IsVisible x
        → IfOk result (AreFoundIn s (InternalChoice p q) x t) }
{
    no_ways(alloc)
}
