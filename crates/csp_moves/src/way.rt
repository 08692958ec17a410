//! The ways in which a step may come about.

ghost use Rattle.std.specs.Prelude.{◌≡◌, ◌∷◌, [], IfOk};
ghost use Rattle.csp_term.specs.Term.{process_of};
ghost use Rattle.theory_origins.specs.Origin.{OnBranch, OnSide};
ghost use Rattle.theory_origins.specs.Ways.{Through, part};
ghost use Rattle.csp_moves.specs.Passage.{side_of};
ghost use Rattle.csp_moves.specs.Way.{lent_action, lent_process, way_of, ways_of};

use crate::passage::Side;
use csp_term::{AllocHandle, EquationId, Event, Memory, Term};

/// An action, whose event is lent.
#[derive(Clone, Copy)]
pub enum LentAction<'t, A: AllocHandle> {
    /// The hidden action.
    Tau,
    /// The end of a process.
    Tick,
    /// A visible event.
    Event(&'t Event<A>),
}

/// A step that a part may do: to the target, if there is one.
#[derive(Clone, Copy)]
pub struct Part<'t, A: AllocHandle> {
    /// The part.
    pub process: &'t Term<A>,
    /// What it does.
    pub action: LentAction<'t, A>,
    /// Where that leads, or that it leads nowhere of which the whole step could be made.
    pub target: Option<&'t Term<A>>,
}

/// The way from a process down to a part, whose events are lent.
#[derive(Clone, Copy)]
pub enum LentPassage<'t, A: AllocHandle> {
    /// To a side of a parallel operator.
    OnSide(Side),
    /// To the body under hiding or renaming.
    InBody,
    /// To a side of another operator, or to a branch.
    OnBranch(Side),
    /// To the body under a guard.
    UnderGuard,
    /// To the chain of the instances of a replicated operator.
    InChain,
    /// The side ends, which is a tau here.
    SideEnds(Side),
    /// The body does the event, which is hidden here.
    Hides(&'t Event<A>),
    /// The body does the first event, which is renamed to the second here.
    Renames(&'t Event<A>, &'t Event<A>),
}

/// A way in which a step may come about: by the process itself, by a part, or by both together.
#[derive(Clone, Copy)]
pub enum Way<'t, A: AllocHandle> {
    /// A prefix does its event.
    Does(&'t Event<A>),
    /// `SKIP` ends, or a composition of which both sides have ended.
    Ends,
    /// A call becomes the body of its equation.
    Unfolds(EquationId),
    /// `|~|` becomes a side.
    Chooses(Side),
    /// `[>` becomes its right side.
    Slides,
    /// A part moves.
    Through(LentPassage<'t, A>, Part<'t, A>),
    /// The left and the right part move together.
    Both(Part<'t, A>, Part<'t, A>),
}

/// The way to a side of a parallel operator, which does the action, to the target, if there is one.
pub(crate) fn to_side<'t, A: AllocHandle>(
    side: Side,
    process: &'t Term<A>,
    action: LentAction<'t, A>,
    target: Option<&'t Term<A>>,
) -> Way<'t, A>
    ensures { way_of result ≡ Through (OnSide (side_of side))
        (part (process_of process.now) (lent_action action.entry) (lent_process target.entry)) }
{
    let part = Part {
        process,
        action,
        target,
    };
    Way::Through(LentPassage::OnSide(side), part)
}

/// The same of another operator, or of a condition.
pub(crate) fn through_branch<'t, A: AllocHandle>(
    side: Side,
    process: &'t Term<A>,
    action: LentAction<'t, A>,
    target: Option<&'t Term<A>>,
) -> Way<'t, A>
    ensures { way_of result ≡ Through (OnBranch (side_of side))
        (part (process_of process.now) (lent_action action.entry) (lent_process target.entry)) }
{
    let part = Part {
        process,
        action,
        target,
    };
    Way::Through(LentPassage::OnBranch(side), part)
}

/// No way.
pub(crate) fn no_ways<'t, A: AllocHandle>(alloc: A) -> Result<Vec<Way<'t, A>, A>, Memory>
    ensures { IfOk result (λ ways. ways_of ways ≡ []) }
{
    Ok(Vec::new(alloc))
}

/// The one way.
pub(crate) fn one_way<'t, A: AllocHandle>(
    alloc: A,
    way: Way<'t, A>,
) -> Result<Vec<Way<'t, A>, A>, Memory>
    ensures { IfOk result (λ ways. ways_of ways ≡ way_of way.entry ∷ []) }
{
    let mut ways = Vec::new(alloc);
    ways.push(way)?;
    Ok(ways)
}

/// The two ways, in order.
pub(crate) fn two_ways<'t, A: AllocHandle>(
    alloc: A,
    first: Way<'t, A>,
    second: Way<'t, A>,
) -> Result<Vec<Way<'t, A>, A>, Memory>
    ensures { IfOk result (λ ways. ways_of ways ≡ way_of first.entry ∷ way_of second.entry ∷ []) }
{
    let mut ways = one_way(alloc, first)?;
    ways.push(second)?;
    Ok(ways)
}

/// The three ways, in order.
pub(crate) fn three_ways<'t, A: AllocHandle>(
    alloc: A,
    first: Way<'t, A>,
    second: Way<'t, A>,
    third: Way<'t, A>,
) -> Result<Vec<Way<'t, A>, A>, Memory>
    ensures { IfOk result (λ ways. ways_of ways ≡ way_of first.entry ∷ way_of second.entry
        ∷ way_of third.entry ∷ []) }
{
    let mut ways = two_ways(alloc, first, second)?;
    ways.push(third)?;
    Ok(ways)
}

/// The four ways, in order.
pub(crate) fn four_ways<'t, A: AllocHandle>(
    alloc: A,
    first: Way<'t, A>,
    second: Way<'t, A>,
    third: Way<'t, A>,
    fourth: Way<'t, A>,
) -> Result<Vec<Way<'t, A>, A>, Memory>
    ensures { IfOk result (λ ways. ways_of ways ≡ way_of first.entry ∷ way_of second.entry
        ∷ way_of third.entry ∷ way_of fourth.entry ∷ []) }
{
    let mut ways = three_ways(alloc, first, second, third)?;
    ways.push(fourth)?;
    Ok(ways)
}
