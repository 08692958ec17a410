//! The origin of a step, which is looked for along the ways of the step.

ghost use Rattle.std.specs.Prelude.{◌≡◌, IfOk, map};
ghost use Rattle.csp_term.specs.Script.{script_of_parts};
ghost use Rattle.csp_term.specs.Term.{process_of};
ghost use Rattle.theory_origins.specs.Origin.{Below};
ghost use Rattle.theory_origins.specs.Telling.{Tells};
ghost use Rattle.theory_origins.specs.Ways.{Both, TellsBy, TellsOf, Through};
ghost use Rattle.csp_moves.specs.Along.{TellsAlong};
ghost use Rattle.csp_moves.specs.Finding.{origin_found};
ghost use Rattle.csp_moves.specs.Passage.{passage_of};
ghost use Rattle.csp_moves.specs.Way.{lent_action, lent_passage, part_of, way_of};

use crate::made::made_for;
use crate::origin::Origin;
use crate::passage::Passage;
use crate::way::{LentAction, LentPassage, Part, Way};
use crate::ways::ways_of_step;
use csp_term::{AllocHandle, Memory, ScriptParts, Term};

/// Where the step of the term comes from, or nothing where the rules give no such step. `Memory` says that there is no
/// room to tell.
#[cycle(origin)]
pub fn origin_of_step<A: AllocHandle>(
    alloc: A,
    script: &ScriptParts<A>,
    term: &Term<A>,
    action: LentAction<'_, A>,
    target: &Term<A>,
) -> Result<Option<Origin<A>>, Memory>
    ensures { IfOk result (λ found. Tells (script_of_parts script.now) (process_of term.now)
        (lent_action action.entry) (process_of target.now) (origin_found found)) }
{
    // Past the limits there is no step to tell of.
    if !target.fits() {
        return Ok(None);
    }
    let made = made_for(alloc, script, term, action, target)?;
    let ways = ways_of_step(alloc, script, &*term, &made, action, &*target)?;
    let found = first_along(alloc, script, &ways);
    drop(ways);
    drop(made);
    found
}

/// The origin along the first of the ways that is not closed.
#[cycle(origin)]
fn first_along<A: AllocHandle>(
    alloc: A,
    script: &ScriptParts<A>,
    ways: &[Way<'_, A>],
) -> Result<Option<Origin<A>>, Memory>
    ensures { IfOk result (λ found. TellsAlong (script_of_parts script.now) (map way_of ways.now)
        (origin_found found)) }
{
    for way in ways {
        let found = along(alloc, script, *way)?;
        if found.is_some() {
            return Ok(found);
        }
    }
    Ok(None)
}

/// The origin along the way, if it is not closed.
#[cycle(origin)]
fn along<A: AllocHandle>(
    alloc: A,
    script: &ScriptParts<A>,
    way: Way<'_, A>,
) -> Result<Option<Origin<A>>, Memory>
    ensures { IfOk result (λ found. TellsBy (script_of_parts script.now) (way_of way.entry)
        (origin_found found)) }
{
    match way {
        Way::Does(event) => Ok(Some(Origin::Does(event.try_copy(alloc)?))),
        Way::Ends => Ok(Some(Origin::Ends)),
        Way::Unfolds(equation) => Ok(Some(Origin::Unfolds(equation))),
        Way::Chooses(side) => Ok(Some(Origin::Chooses(side))),
        Way::Slides => Ok(Some(Origin::Slides)),
        Way::Through(passage, part) => through(alloc, script, passage, part),
        Way::Both(left, right) => of_both(alloc, script, left, right),
    }
}

/// The origin below the passage, if the part does its step.
#[cycle(origin)]
fn through<A: AllocHandle>(
    alloc: A,
    script: &ScriptParts<A>,
    passage: LentPassage<'_, A>,
    part: Part<'_, A>,
) -> Result<Option<Origin<A>>, Memory>
    ensures { IfOk result (λ found. TellsBy (script_of_parts script.now)
        (Through (lent_passage passage.entry) (part_of part.entry)) (origin_found found)) }
{
    let found = of_part(alloc, script, part)?;
    let Some(origin) = found else {
        return Ok(None);
    };
    let passage = passage.into_passage(alloc)?;
    Ok(Some(Origin::Below(passage, Box::new(alloc, origin)?)))
}

/// The origin by both parts, if both do their steps.
#[cycle(origin)]
fn of_both<A: AllocHandle>(
    alloc: A,
    script: &ScriptParts<A>,
    left: Part<'_, A>,
    right: Part<'_, A>,
) -> Result<Option<Origin<A>>, Memory>
    ensures { IfOk result (λ found. TellsBy (script_of_parts script.now)
        (Both (part_of left.entry) (part_of right.entry)) (origin_found found)) }
{
    let first = of_part(alloc, script, left)?;
    let Some(left_origin) = first else {
        return Ok(None);
    };
    let second = of_part(alloc, script, right)?;
    let Some(right_origin) = second else {
        return Ok(None);
    };
    let left_box = Box::new(alloc, left_origin)?;
    let right_box = Box::new(alloc, right_origin)?;
    Ok(Some(Origin::Together(left_box, right_box)))
}

/// The origin of the part's step, if it is one to a target.
#[cycle(origin)]
fn of_part<A: AllocHandle>(
    alloc: A,
    script: &ScriptParts<A>,
    part: Part<'_, A>,
) -> Result<Option<Origin<A>>, Memory>
    ensures { IfOk result (λ found. TellsOf (script_of_parts script.now) (part_of part.entry)
        (origin_found found)) }
{
    let Some(target) = part.target else {
        return Ok(None);
    };
    origin_of_step(alloc, script, part.process, part.action, target)
}

impl<'t, A: AllocHandle> LentPassage<'t, A> {
    /// The passage with copies of its events. `Memory` says that there is no room for them.
    fn into_passage(self, alloc: A) -> Result<Passage<A>, Memory>
        ensures { IfOk result (λ passage. passage_of passage ≡ lent_passage self.entry) }
    {
        match self {
            LentPassage::OnSide(side) => Ok(Passage::OnSide(side)),
            LentPassage::InBody => Ok(Passage::InBody),
            LentPassage::OnBranch(side) => Ok(Passage::OnBranch(side)),
            LentPassage::UnderGuard => Ok(Passage::UnderGuard),
            LentPassage::InChain => Ok(Passage::InChain),
            LentPassage::SideEnds(side) => Ok(Passage::SideEnds(side)),
            LentPassage::Hides(event) => Ok(Passage::Hides(event.try_copy(alloc)?)),
            LentPassage::Renames(from, to) => {
                let from = from.try_copy(alloc)?;
                Ok(Passage::Renames(from, to.try_copy(alloc)?))
            }
        }
    }
}
