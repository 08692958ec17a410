//! The ways of `P /\ Q`.

ghost use Rattle.std.specs.Prelude.{IfOk};
ghost use Rattle.theory_syntax.specs.Process.{Interrupt};
ghost use Rattle.theory_syntax.specs.Value.{Ev, Tau, Tick};
ghost use Rattle.csp_value.specs.Action.{event_of};
ghost use Rattle.csp_term.specs.Term.{process_of};
ghost use Rattle.csp_moves.specs.Way.{AreFound, lent_action};

use crate::operator::{Joint, left_of, right_of};
use crate::passage::Side;
use crate::way::{LentAction, Way, through_branch, two_ways};
use csp_term::{AllocHandle, Event, Memory, ProcessOperator, Term};

/// The ways in which `P /\ Q` may do the step. `Memory` says that there is no room for them.
pub fn interrupt_ways<'t, A: AllocHandle>(
    alloc: A,
    left: &'t Term<A>,
    right: &'t Term<A>,
    action: LentAction<'t, A>,
    target: &'t Term<A>,
) -> Result<Vec<Way<'t, A>, A>, Memory>
    ensures { IfOk result (AreFound (Interrupt (process_of left.now) (process_of right.now))
        (lent_action action.entry) (process_of target.now)) }
{
    match action {
        LentAction::Tau => by_tau(alloc, left, right, target),
        LentAction::Tick => by_tick(alloc, left, right, target),
        LentAction::Event(event) => by_event(alloc, left, right, event, target),
    }
}

/// A tau of a side stays under the operator.
fn by_tau<'t, A: AllocHandle>(
    alloc: A,
    left: &'t Term<A>,
    right: &'t Term<A>,
    target: &'t Term<A>,
) -> Result<Vec<Way<'t, A>, A>, Memory>
    ensures { IfOk result (AreFound (Interrupt (process_of left.now) (process_of right.now)) Tau
        (process_of target.now)) }
{
    let operator = Joint::Binary(ProcessOperator::Interrupt);
    let left_target = left_of(&operator, right, target);
    let right_target = right_of(&operator, left, target);
    let by_left = through_branch(Side::Left, left, LentAction::Tau, left_target);
    let by_right = through_branch(Side::Right, right, LentAction::Tau, right_target);
    two_ways(alloc, by_left, by_right)
}

/// An event of the left side stays under the operator, and one of the right side leaves it.
fn by_event<'t, A: AllocHandle>(
    alloc: A,
    left: &'t Term<A>,
    right: &'t Term<A>,
    event: &'t Event<A>,
    target: &'t Term<A>,
) -> Result<Vec<Way<'t, A>, A>, Memory>
    ensures { IfOk result (AreFound (Interrupt (process_of left.now) (process_of right.now))
        (Ev (event_of event.now)) (process_of target.now)) }
{
    let operator = Joint::Binary(ProcessOperator::Interrupt);
    let action = LentAction::Event(event);
    let by_left = through_branch(Side::Left, left, action, left_of(&operator, right, target));
    let by_right = through_branch(Side::Right, right, action, Some(target));
    two_ways(alloc, by_left, by_right)
}

/// The end of a side is that of the whole.
fn by_tick<'t, A: AllocHandle>(
    alloc: A,
    left: &'t Term<A>,
    right: &'t Term<A>,
    target: &'t Term<A>,
) -> Result<Vec<Way<'t, A>, A>, Memory>
    ensures { IfOk result (AreFound (Interrupt (process_of left.now) (process_of right.now)) Tick
        (process_of target.now)) }
{
    let by_left = through_branch(Side::Left, left, LentAction::Tick, Some(target));
    let by_right = through_branch(Side::Right, right, LentAction::Tick, Some(target));
    two_ways(alloc, by_left, by_right)
}
