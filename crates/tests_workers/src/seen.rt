//! What can be seen of a store.

use csp_term::AllocHandle;
use numbered_rows::Level;
use pair_store::{Store, Verdict};
use std::alloc::{AllocError, Global};
use std::test::Fail;

/// The number of the level in work, how the search ended, if it did, and the rows of the level that are not finished,
/// each by its place and its node.
#[derive(Drop)]
pub(crate) struct Seen {
    number: usize,
    verdict: Verdict,
    rows: Vec<(usize, usize), Global>,
}

impl Seen {
    /// What is seen of the store, by a level in that memory.
    pub(crate) fn of<A: AllocHandle>(
        alloc: Global,
        memory: A,
        store: &Store<'_, A>,
    ) -> Result<Seen, Fail> {
        let level = store.level(memory)?;
        Ok(Seen {
            number: store.number(),
            verdict: store.verdict(),
            rows: rows_of(alloc, &level)?,
        })
    }

    /// How many rows of the level are not finished.
    pub(crate) fn unfinished(&self) -> usize {
        self.rows.len()
    }

    /// Whether the same is seen.
    pub(crate) fn is_same(&self, other: &Seen) -> bool {
        self.is_at_the_same_level(other) && self.rows.as_slice() == other.rows.as_slice()
    }

    /// Whether the search is at the same level, with the same verdict.
    fn is_at_the_same_level(&self, other: &Seen) -> bool {
        self.number == other.number && self.verdict == other.verdict
    }
}

/// The places and the nodes of the level's rows.
fn rows_of<A: AllocHandle>(
    alloc: Global,
    level: &Level<A>,
) -> Result<Vec<(usize, usize), Global>, AllocError> {
    let mut rows = Vec::new(alloc);
    for row in &level.rows {
        rows.push((row.place, row.node))?;
    }
    Ok(rows)
}
