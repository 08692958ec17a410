//! The parts that are tried in the holes of a shape.

use csp_rows::{Part, PartId, PartStep};
use csp_term::Memory;
use std::alloc::Allocator;

// The most parts that are tried in a hole.
const MOST_TRIED: usize = 64;

// How many of these may be let go for others.
const MOST_LET_GO: usize = 32;

// What the spelling of a term begins with where an operator that stays is at its head:
// interleaving, generalised and alphabetised parallel, hiding, renaming.
static STANDING_HEADS: [u8; 5] = [0x0b, 0x0d, 0x0e, 0x0f, 0x10];

/// The parts that are tried in each hole, in turn, where a term is known by its bytes.
#[derive(Drop)]
pub(crate) struct Tried<A: Allocator> {
    // The parts of each hole, that of the last row first.
    holes: Vec<Vec<PartId, A>, A>,
    // Whether the targets of the part of each number are tried too, in each hole.
    followed: Vec<Vec<bool, A>, A>,
}

/// The place of a part among those that are tried, or how many these are.
fn place_of(tried: &[PartId], part: PartId) -> usize {
    for (place, other) in tried.iter().enumerate() {
        if other.0 == part.0 {
            return place;
        }
    }
    tried.len()
}

/// Puts a part behind those that are tried in a hole, unless it is one of them; where there are too many, in the place of
/// one of the later ones.
fn try_part<A: Allocator>(tried: &mut Vec<PartId, A>, part: PartId) -> Result<(), Memory> {
    if place_of(tried, part) < tried.len() {
        return Ok(());
    }
    if tried.len() < MOST_TRIED {
        tried.push(part)?;
    } else {
        tried[MOST_TRIED - 1 - part.0 as usize % MOST_LET_GO] = part;
    }
    Ok(())
}

/// Puts a part before all others that are tried in a hole, if it is one of them.
fn put_first(tried: &mut [PartId], part: PartId) {
    let place = place_of(tried, part);
    if place < tried.len() {
        for earlier in 0..place {
            tried.swap(earlier, place);
        }
    }
}

/// Marks the part of a number. The answer is whether it was not marked before.
fn mark<A: Allocator>(marks: &mut Vec<bool, A>, part: PartId) -> Result<bool, Memory> {
    let place = part.0 as usize;
    if marks.get(place).copied().unwrap_or(false) {
        return Ok(false);
    }
    if place >= marks.len() {
        marks.resize(place + 1, false)?;
    }
    marks[place] = true;
    Ok(true)
}

/// Whether an operator that stays is at the head of a part. Such a part is taken apart, and does
/// not stand in a hole.
fn is_composed<A: Allocator>(parts: &[Part<A>], part: PartId) -> bool {
    let Some(part) = parts.get(part.0 as usize) else {
        return false;
    };
    match part.spelling.as_slice() {
        [head, ..] => STANDING_HEADS.contains(head),
        [] => false,
    }
}

/// The steps that are kept of a part.
fn steps_of<'p, A: Allocator>(parts: &'p [Part<A>], part: PartId) -> &'p [PartStep] {
    let Some(part) = parts.get(part.0 as usize) else {
        return &[];
    };
    match &part.steps {
        Some(steps) => steps.as_slice(),
        None => &[],
    }
}

impl<A: Allocator + Copy> Tried<A> {
    /// Nothing, in no hole.
    pub(crate) fn new(alloc: A) -> Tried<A> {
        let holes = Vec::new(alloc);
        let followed = Vec::new(alloc);
        Tried { holes, followed }
    }

    /// The parts of a row, each in its hole.
    pub(crate) fn of_row(alloc: A, row: &[PartId]) -> Result<Tried<A>, Memory> {
        let mut tried = Tried::new(alloc);
        for part in row {
            let parts = Vec::from_slice(alloc, &[*part])?;
            tried.holes.push(parts)?;
            tried.followed.push(Vec::new(alloc))?;
        }
        Ok(tried)
    }

    /// The parts of each hole.
    pub(crate) fn in_holes(&self) -> &[Vec<PartId, A>] {
        self.holes.as_slice()
    }

    /// These, or the others where these have no hole.
    pub(crate) fn or_else<'t>(&'t self, others: &'t Tried<A>) -> &'t Tried<A> {
        if self.holes.is_empty() { others } else { self }
    }

    /// Tries each part of a row in its hole.
    pub(crate) fn add_row(&mut self, row: &[PartId]) -> Result<(), Memory> {
        for (hole, part) in row.iter().enumerate() {
            if hole < self.holes.len() {
                try_part(&mut self.holes[hole], *part)?;
            }
        }
        Ok(())
    }

    /// Tries each part of a row before all others in its hole, and what its steps lead to too.
    pub(crate) fn follow_row(&mut self, row: &[PartId], parts: &[Part<A>]) -> Result<(), Memory> {
        for (hole, part) in row.iter().enumerate() {
            if hole < self.holes.len() {
                put_first(&mut self.holes[hole], *part);
            }
            self.follow(hole, *part, parts)?;
        }
        Ok(())
    }

    /// Tries what the steps of a part lead to in a hole, but for terms to be taken apart, unless
    /// that was done before.
    fn follow(&mut self, hole: usize, part: PartId, parts: &[Part<A>]) -> Result<(), Memory> {
        if hole >= self.holes.len() || hole >= self.followed.len() {
            return Ok(());
        }
        if mark(&mut self.followed[hole], part)? {
            for step in steps_of(parts, part) {
                if !is_composed(parts, step.target) {
                    try_part(&mut self.holes[hole], step.target)?;
                }
            }
        }
        Ok(())
    }
}
