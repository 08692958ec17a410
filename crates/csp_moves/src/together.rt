//! The ways of two processes side by side, by what each may do alone and what both do together.

ghost use Rattle.std.specs.Prelude.{◌≡◌, ◌↔◌, IfOk, IsTrue};
ghost use Rattle.theory_syntax.specs.Value.{Ev};
ghost use Rattle.csp_value.specs.Action.{event_of};
ghost use Rattle.csp_term.specs.Term.{process_of};
ghost use Rattle.theory_origins.specs.Ways.{Both, IsBodyWhere, IsSplitWhere, first_of, part, second_of};
ghost use Rattle.csp_moves.specs.Parallel.{AreEventWays, AreParallelWays, AreTauWays, AreTickWays, HaveEnded};
ghost use Rattle.csp_moves.specs.Sides.{joined, joint_of, sides_split};
ghost use Rattle.csp_moves.specs.Way.{lent_action, lent_process, way_of, ways_of};

use crate::operator::{Joint, Sides, both_of, left_of, right_of};
use crate::passage::Side;
use crate::way::{
    LentAction, LentPassage, Part, Way, four_ways, no_ways, one_way, three_ways, to_side,
};
use csp_term::{AllocHandle, Event, Memory, Term};

/// Whether each side may do an event alone, and whether both may do it together.
#[derive(Clone, Copy)]
pub(crate) struct Freedom {
    pub(crate) left: bool,
    pub(crate) right: bool,
    pub(crate) shared: bool,
}

impl Freedom {
    /// Nothing may be done.
    pub(crate) fn none() -> Freedom {
        Freedom {
            left: false,
            right: false,
            shared: false,
        }
    }
}

/// What the target has on the left, where the left side may move alone.
fn left_where<'t, A: AllocHandle>(
    free: bool,
    operator: &Joint<'_, A>,
    right: &Term<A>,
    target: &'t Term<A>,
) -> Option<&'t Term<A>>
    ensures { IsBodyWhere free (λ u. joined (joint_of operator.now) u (process_of right.now))
        (process_of target.now) (lent_process result) }
{
    if free {
        return left_of(operator, right, target);
    }
    None
}

/// What the target has on the right, where the right side may move alone.
fn right_where<'t, A: AllocHandle>(
    free: bool,
    operator: &Joint<'_, A>,
    left: &Term<A>,
    target: &'t Term<A>,
) -> Option<&'t Term<A>>
    ensures { IsBodyWhere free (λ v. joined (joint_of operator.now) (process_of left.now) v)
        (process_of target.now) (lent_process result) }
{
    if free {
        return right_of(operator, left, target);
    }
    None
}

/// What the target has on both sides, where both may move together.
fn both_where<'t, A: AllocHandle>(
    shared: bool,
    operator: &Joint<'_, A>,
    target: &'t Term<A>,
) -> Option<Sides<'t, A>>
    ensures { IsSplitWhere shared (joined (joint_of operator.now)) (process_of target.now)
        (sides_split result) }
{
    if shared {
        return both_of(operator, target);
    }
    None
}

/// The way by both sides, to those of the target, if it has such.
fn by_both<'t, A: AllocHandle>(
    left: &'t Term<A>,
    right: &'t Term<A>,
    event: &'t Event<A>,
    target: Option<Sides<'t, A>>,
) -> Way<'t, A>
    ensures { way_of result
        ≡ Both (part (process_of left.now) (Ev (event_of event.now))
        (first_of (sides_split target.entry)))
        (part (process_of right.now) (Ev (event_of event.now))
        (second_of (sides_split target.entry))) }
{
    let action = LentAction::Event(event);
    match target {
        Some(sides) => Way::Both(
            Part {
                process: left,
                action,
                target: Some(sides.left),
            },
            Part {
                process: right,
                action,
                target: Some(sides.right),
            },
        ),
        None => Way::Both(
            Part {
                process: left,
                action,
                target: None,
            },
            Part {
                process: right,
                action,
                target: None,
            },
        ),
    }
}

/// The ways of a tau: one of a side, or the end of a side.
fn by_tau<'t, A: AllocHandle>(
    alloc: A,
    sides: Sides<'t, A>,
    target: &'t Term<A>,
) -> Result<Vec<Way<'t, A>, A>, Memory>
    ensures { IfOk result (λ ways. AreTauWays (joined (joint_of sides.entry.operator))
        (process_of sides.entry.left.now) (process_of sides.entry.right.now) (process_of target.now)
        (ways_of ways)) }
{
    let left = left_of(&sides.operator, sides.right, target);
    let right = right_of(&sides.operator, sides.left, target);
    let by_left = to_side(Side::Left, sides.left, LentAction::Tau, left);
    let by_right = to_side(Side::Right, sides.right, LentAction::Tau, right);
    let left_part = Part {
        process: sides.left,
        action: LentAction::Tick,
        target: left,
    };
    let right_part = Part {
        process: sides.right,
        action: LentAction::Tick,
        target: right,
    };
    let by_left_end = Way::Through(LentPassage::SideEnds(Side::Left), left_part);
    let by_right_end = Way::Through(LentPassage::SideEnds(Side::Right), right_part);
    four_ways(alloc, by_left, by_right, by_left_end, by_right_end)
}

/// The ways of an event: one of a side alone, or of both.
fn by_event<'t, A: AllocHandle>(
    alloc: A,
    sides: Sides<'t, A>,
    freedom: Freedom,
    event: &'t Event<A>,
    target: &'t Term<A>,
) -> Result<Vec<Way<'t, A>, A>, Memory>
    ensures { IfOk result (λ ways. AreEventWays (joined (joint_of sides.entry.operator)) freedom
        (process_of sides.entry.left.now) (process_of sides.entry.right.now) (event_of event.now)
        (process_of target.now) (ways_of ways)) }
{
    let action = LentAction::Event(event);
    let left = left_where(freedom.left, &sides.operator, sides.right, target);
    let right = right_where(freedom.right, &sides.operator, sides.left, target);
    let both = both_where(freedom.shared, &sides.operator, target);
    let by_left = to_side(Side::Left, sides.left, action, left);
    let by_right = to_side(Side::Right, sides.right, action, right);
    let together = by_both(sides.left, sides.right, event, both);
    three_ways(alloc, by_left, by_right, together)
}

/// Whether both sides have ended, and the target too.
fn have_ended<A: AllocHandle>(left: &Term<A>, right: &Term<A>, target: &Term<A>) -> bool
    ensures { IsTrue result ↔ HaveEnded (process_of left.now) (process_of right.now)
        (process_of target.now) }
{
    left.is_omega() && right.is_omega() && target.is_omega()
}

/// Both sides have ended, and then the whole ends.
fn by_tick<'t, A: AllocHandle>(
    alloc: A,
    sides: Sides<'t, A>,
    target: &'t Term<A>,
) -> Result<Vec<Way<'t, A>, A>, Memory>
    ensures { IfOk result (λ ways. AreTickWays (process_of sides.entry.left.now)
        (process_of sides.entry.right.now) (process_of target.now) (ways_of ways)) }
{
    if have_ended(sides.left, sides.right, target) {
        return one_way(alloc, Way::Ends);
    }
    no_ways(alloc)
}

/// The ways of two processes under the operator, of which each may do so much of the step's event.
pub(crate) fn parallel_ways<'t, A: AllocHandle>(
    alloc: A,
    sides: Sides<'t, A>,
    freedom: Freedom,
    action: LentAction<'t, A>,
    target: &'t Term<A>,
) -> Result<Vec<Way<'t, A>, A>, Memory>
    ensures { IfOk result (λ ways. AreParallelWays (joined (joint_of sides.entry.operator)) freedom
        (process_of sides.entry.left.now) (process_of sides.entry.right.now)
        (lent_action action.entry) (process_of target.now) (ways_of ways)) }
{
    match action {
        LentAction::Tau => by_tau(alloc, sides, target),
        LentAction::Tick => by_tick(alloc, sides, target),
        LentAction::Event(event) => by_event(alloc, sides, freedom, event, target),
    }
}
