//! Bytes split into the parts that stand between the pieces of a shape.

ghost use Rattle.std.specs.Prelude.{◌≡◌, ◌∷◌, [], IfOk, get_or};
ghost use Rattle.csp_rows.specs.Split.{IsRunAtFront, IsSplitAnswer};
ghost use Rattle.csp_rows.specs.Told.{items_of};

use crate::numbers::PartId;
use crate::part::Part;
use crate::places::Place;
use std::alloc::{AllocError, Allocator};

/// The parts of a row and where they are spelled.
#[derive(Drop)]
pub struct SplitRow<A: Allocator> {
    /// The numbers of the parts, one a hole, from the left.
    pub numbers: Vec<PartId, A>,
    /// Where the part in each hole is spelled.
    pub places: Vec<Place, A>,
}

/// A part that is spelled at the front of bytes.
#[derive(Clone, Copy)]
struct FrontRun<'b> {
    /// The number of the part.
    number: PartId,
    /// The bytes behind its spelling.
    behind: &'b [u8],
}

/// The part of this number, if it is spelled at the front of the bytes.
fn run_of<'b, A: Allocator>(
    bytes: &'b [u8],
    number: PartId,
    parts: &[Part<A>],
) -> Option<FrontRun<'b>>
    ensures { IsRunAtFront bytes.now (number ∷ []) parts.now result }
{
    let Some(part) = parts.get(number.0 as usize) else {
        return None;
    };
    match bytes.strip_prefix(part.spelling.as_slice()) {
        Some(behind) => Some(FrontRun { number, behind }),
        None => None,
    }
}

/// The first of the parts that are tried that is spelled at the front of the bytes.
fn first_run<'b, A: Allocator>(
    bytes: &'b [u8],
    tried: &[PartId],
    parts: &[Part<A>],
) -> Option<FrontRun<'b>>
    ensures { IsRunAtFront bytes.now tried.now parts.now result }
{
    for number in tried {
        let run = run_of(bytes, *number, parts);
        if run.is_some() {
            return run;
        }
    }
    None
}

/// The parts that are tried in a hole, none where there is no such hole.
fn tried_in<A: Allocator>(tried: &[Vec<PartId, A>], hole: usize) -> &[PartId]
    ensures { result.now ≡ get_or (items_of tried.now) hole [] }
{
    match tried.get(hole) {
        Some(numbers) => numbers.as_slice(),
        None => &[],
    }
}

/// The parts that the bytes spell between these pieces, each of them one that is tried in its hole. `None` where there are
/// none such: no spelling of a part begins another one, so there is one way at most.
pub fn split<A: Allocator + Copy>(
    alloc: A,
    bytes: &[u8],
    pieces: &[Vec<u8, A>],
    tried: &[Vec<PartId, A>],
    parts: &[Part<A>],
) -> Result<Option<SplitRow<A>>, AllocError>
    ensures { IfOk result
        (IsSplitAnswer parts.now bytes.now (items_of pieces.now) (items_of tried.now)) }
{
    let [first, later @ ..] = pieces else {
        return Ok(None);
    };
    let Some(mut rest) = bytes.strip_prefix(first.as_slice()) else {
        return Ok(None);
    };
    let mut numbers = Vec::with_capacity(alloc, later.len())?;
    let mut places = Vec::with_capacity(alloc, later.len())?;
    for (hole, piece) in later.iter().enumerate() {
        let Some(run) = first_run(rest, tried_in(tried, hole), parts) else {
            return Ok(None);
        };
        let Some(behind) = run.behind.strip_prefix(piece.as_slice()) else {
            return Ok(None);
        };
        let start = bytes.len() - rest.len();
        let end = bytes.len() - run.behind.len();
        numbers.push(run.number)?;
        places.push(Place { start, end })?;
        rest = behind;
    }
    if !rest.is_empty() {
        return Ok(None);
    }
    Ok(Some(SplitRow { numbers, places }))
}
