//! What a step unfolds.

ghost use Rattle.std.specs.Prelude.{◌≡◌, IfOk, option_map};
ghost use Rattle.theory_explanation.specs.PartNames.{name_above, name_further, unfolded};
ghost use Rattle.csp_moves.specs.Origin.{origin_of};
ghost use Rattle.csp_moves.specs.Passage.{passage_of, side_of};
ghost use Rattle.counterexample.specs.PartNames.{part_name_of};

use crate::part_names::PartName;
use csp_moves::{Origin, Passage, Side};
use csp_term::AllocHandle;
use std::alloc::AllocError;

/// The equation that a step from the origin unfolds, and where.
#[cycle(unfolded)]
pub(crate) fn unfolded_in<A: AllocHandle>(
    alloc: A,
    origin: &Origin<A>,
) -> Result<Option<PartName<A>>, AllocError>
    ensures { IfOk result (λ d. option_map part_name_of d ≡ unfolded (origin_of origin.now)) }
{
    match origin {
        Origin::Does(_) => Ok(None),
        Origin::Ends => Ok(None),
        Origin::Unfolds(equation) => Ok(Some(PartName {
            way: Vec::new(alloc),
            equation: *equation,
        })),
        Origin::Chooses(_) => Ok(None),
        Origin::Slides => Ok(None),
        Origin::Below(passage, part) => {
            let below = unfolded_in(alloc, part)?;
            name_above(alloc, passage, below)
        }
        Origin::Together(_, _) => Ok(None),
    }
}

// The same above the passage to a part.
fn name_above<A: AllocHandle>(
    alloc: A,
    passage: &Passage<A>,
    below: Option<PartName<A>>,
) -> Result<Option<PartName<A>>, AllocError>
    ensures { IfOk result (λ d. option_map part_name_of d
        ≡ name_above (passage_of passage.now) (option_map part_name_of below)) }
{
    match passage {
        Passage::OnSide(side) => name_further(alloc, *side, below),
        Passage::InBody => Ok(below),
        Passage::OnBranch(_) => Ok(None),
        Passage::UnderGuard => Ok(below),
        Passage::InChain => Ok(below),
        Passage::SideEnds(_) => Ok(None),
        Passage::Hides(_) => Ok(None),
        Passage::Renames(_, _) => Ok(None),
    }
}

// The same from one level further up.
fn name_further<A: AllocHandle>(
    alloc: A,
    side: Side,
    below: Option<PartName<A>>,
) -> Result<Option<PartName<A>>, AllocError>
    ensures { IfOk result (λ d. option_map part_name_of d
        ≡ option_map (name_further (side_of side)) (option_map part_name_of below)) }
{
    let Some(name) = below else {
        return Ok(None);
    };
    let mut way = Vec::new(alloc);
    way.push(side)?;
    let mut rest = name.way;
    way.append(&mut rest)?;
    let equation = name.equation;
    Ok(Some(PartName { way, equation }))
}
