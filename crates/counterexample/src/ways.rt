//! Ways down to parts.

ghost use Rattle.std.specs.Prelude.{◌≡◌, ◌∷◌, ◌++◌, [], IfOk, map};
ghost use Rattle.theory_explanation.specs.Legend.{side_text, way_behind, way_text};
ghost use Rattle.theory_explanation.specs.PartNames.{same_side, same_way};
ghost use Rattle.csp_moves.specs.Passage.{side_of};
ghost use Rattle.csp_print.specs.Writing.{Writes};

use crate::marks::push_mark;
use csp_moves::Side;
use csp_term::AllocHandle;
use std::alloc::AllocError;

/// Whether the two ways are the same.
pub(crate) fn same_way(one: &[Side], other: &[Side]) -> bool
    ensures { result ≡ same_way (map side_of one.now) (map side_of other.now) }
{
    match (one.split_first(), other.split_first()) {
        (Some((first, rest)), Some((second, others))) => {
            same_side(*first, *second) && same_way(rest, others)
        }
        (None, None) => true,
        (Some(_), None) | (None, Some(_)) => false,
    }
}

fn same_side(one: Side, other: Side) -> bool
    ensures { result ≡ same_side (side_of one) (side_of other) }
{
    match (one, other) {
        (Side::Left, Side::Left) | (Side::Right, Side::Right) => true,
        (Side::Left, Side::Right) | (Side::Right, Side::Left) => false,
    }
}

/// The way, and behind it one more side.
pub fn longer<A: AllocHandle>(
    alloc: A,
    way: &[Side],
    side: Side,
) -> Result<Vec<Side, A>, AllocError>
    ensures { IfOk result (λ further. map side_of further.items
        ≡ map side_of way.now ++ side_of side ∷ []) }
{
    let mut further = Vec::from_slice(alloc, way)?;
    further.push(side)?;
    Ok(further)
}

/// The way, and behind it another one.
pub(crate) fn joined<A: AllocHandle>(
    alloc: A,
    way: &[Side],
    other: &[Side],
) -> Result<Vec<Side, A>, AllocError>
    ensures { IfOk result (λ whole. map side_of whole.items
        ≡ map side_of way.now ++ map side_of other.now) }
{
    let mut whole = Vec::from_slice(alloc, way)?;
    whole.extend_from_slice(other)?;
    Ok(whole)
}

/// The sides of a way, with `.` between.
pub(crate) fn push_way<A: AllocHandle>(way: &[Side], text: &mut String<A>) -> Result<(), AllocError>
    ensures { Writes result text.old text.new (way_text (map side_of way.now)) }
{
    match way.split_first() {
        Some((first, others)) => {
            push_side(*first, text)?;
            push_sides_behind(others, text)
        }
        None => Ok(()),
    }
}

// The sides, with `.` before each.
fn push_sides_behind<A: AllocHandle>(way: &[Side], text: &mut String<A>) -> Result<(), AllocError>
    ensures { Writes result text.old text.new (way_behind (map side_of way.now)) }
{
    for side in way {
        push_mark(".", text)?;
        push_side(*side, text)?;
    }
    Ok(())
}

/// The side in a word.
pub(crate) fn push_side<A: AllocHandle>(side: Side, text: &mut String<A>) -> Result<(), AllocError>
    ensures { Writes result text.old text.new (side_text (side_of side)) }
{
    match side {
        Side::Left => push_mark("left", text),
        Side::Right => push_mark("right", text),
    }
}
