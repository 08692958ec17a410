//! The ways of `P ; Q`.

ghost use Rattle.std.specs.Prelude.{◌≡◌, IfOk, IsTrue};
ghost use Rattle.theory_syntax.specs.Process.{Omega, Process, Script, Sequential};
ghost use Rattle.theory_syntax.specs.Value.{Ev, Tau, Tick};
ghost use Rattle.csp_value.specs.Action.{event_of};
ghost use Rattle.theory_semantics.specs.Meaning.Limits.{fits};
ghost use Rattle.theory_semantics.specs.Meaning.Unfolding.{settled};
ghost use Rattle.csp_term.specs.Script.{script_of_parts};
ghost use Rattle.csp_term.specs.Term.{process_of};
ghost use Rattle.theory_origins.specs.Ways.{IsEndAt};
ghost use Rattle.csp_moves.specs.Way.{AreFoundIn, lent_action, lent_process};

use crate::operator::{Joint, left_of};
use crate::passage::Side;
use crate::settled::leads_to;
use crate::way::{LentAction, LentPassage, Part, Way, no_ways, one_way, through_branch, two_ways};
use csp_term::{AllocHandle, Event, Memory, ProcessOperator, ScriptParts, Term};

/// The ways in which `P ; Q` may do the step, of which the first process ends in `ended`. `Memory` says that there is no
/// room for them.
pub fn sequential_ways<'t, A: AllocHandle>(
    alloc: A,
    script: &ScriptParts<A>,
    left: &'t Term<A>,
    right: &'t Term<A>,
    ended: &'t Term<A>,
    action: LentAction<'t, A>,
    target: &'t Term<A>,
) -> Result<Vec<Way<'t, A>, A>, Memory>
    requires ended { process_of ended.now ≡ Omega }
    requires within { IsTrue (fits (process_of target.now)) }
    ensures { IfOk result (AreFoundIn (script_of_parts script.now)
        (Sequential (process_of left.now) (process_of right.now)) (lent_action action.entry)
        (process_of target.now)) }
{
    match action {
        LentAction::Tau => by_tau(alloc, script, left, right, ended, target),
        LentAction::Tick => by_tick(alloc),
        LentAction::Event(event) => by_event(alloc, left, right, event, target),
    }
}

/// The end of the first process, where the target is the second one, settled.
fn end_at<'t, A: AllocHandle>(
    alloc: A,
    script: &ScriptParts<A>,
    right: &Term<A>,
    ended: &'t Term<A>,
    target: &Term<A>,
) -> Result<Option<&'t Term<A>>, Memory>
    requires ended { process_of ended.now ≡ Omega }
    requires within { IsTrue (fits (process_of target.now)) }
    ensures { IfOk result (λ end. IsEndAt (process_of target.now)
        (settled (script_of_parts script.now) (process_of right.now)) (lent_process end)) }
{
    if leads_to(alloc, script, right, target)? {
        return Ok(Some(ended));
    }
    Ok(None)
}

fn by_tau<'t, A: AllocHandle>(
    alloc: A,
    script: &ScriptParts<A>,
    left: &'t Term<A>,
    right: &'t Term<A>,
    ended: &'t Term<A>,
    target: &'t Term<A>,
) -> Result<Vec<Way<'t, A>, A>, Memory>
    requires ended { process_of ended.now ≡ Omega }
    requires within { IsTrue (fits (process_of target.now)) }
    ensures { IfOk result (AreFoundIn (script_of_parts script.now)
        (Sequential (process_of left.now) (process_of right.now)) Tau (process_of target.now)) }
{
    let operator = Joint::Binary(ProcessOperator::Sequential);
    let by_left = through_branch(
        Side::Left,
        left,
        LentAction::Tau,
        left_of(&operator, right, target),
    );
    let end = end_at(alloc, script, right, ended, target)?;
    let part = Part {
        process: left,
        action: LentAction::Tick,
        target: end,
    };
    let by_end = Way::Through(LentPassage::SideEnds(Side::Left), part);
    two_ways(alloc, by_left, by_end)
}

fn by_event<'t, A: AllocHandle>(
    alloc: A,
    left: &'t Term<A>,
    right: &'t Term<A>,
    event: &'t Event<A>,
    target: &'t Term<A>,
) -> Result<Vec<Way<'t, A>, A>, Memory>
    ensures { (s : Script)
        → IfOk result (AreFoundIn s (Sequential (process_of left.now) (process_of right.now))
        (Ev (event_of event.now)) (process_of target.now)) }
{
    let operator = Joint::Binary(ProcessOperator::Sequential);
    let left_target = left_of(&operator, right, target);
    one_way(
        alloc,
        through_branch(Side::Left, left, LentAction::Event(event), left_target),
    )
}

/// The end of the first process is not seen, and that of the second is none of the whole yet.
fn by_tick<'t, A: AllocHandle>(alloc: A) -> Result<Vec<Way<'t, A>, A>, Memory>
    ensures { (s : Script) (p q t : Process) → IfOk result (AreFoundIn s (Sequential p q) Tick t) }
{
    no_ways(alloc)
}
