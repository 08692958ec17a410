//! How far the search for the answer to an assertion is.

use crate::lines::{SearchState, search_line};
use crate::seconds::Seconds;
use explore::Gate;
use kept_parts::Tally;
use std::alloc::Allocator;
use std::sync::atomic::AtomicU64;
use std::sync::atomic::Ordering::SeqCst;
use watch::Watch;

/// How far the search for the answer to an assertion is.
#[derive(Drop)]
pub struct SearchProgress<'w, W, A> {
    alloc: A,
    seconds: Seconds<'w, W>,
    assertion: usize,
    level: AtomicU64,
    stored: AtomicU64,
    drawn: AtomicU64,
}

impl<'w, W: Watch, A: Allocator + Copy> SearchProgress<'w, W, A> {
    /// That of a search for the answer to the assertion of this number, which begins now. If it is not watched, nothing is
    /// told of it.
    pub fn begin(
        alloc: A,
        watch: &'w W,
        assertion: usize,
        is_watched: bool,
    ) -> SearchProgress<'w, W, A> {
        SearchProgress {
            alloc,
            seconds: Seconds::begin(watch, is_watched),
            assertion,
            level: AtomicU64::new(0),
            stored: AtomicU64::new(0),
            drawn: AtomicU64::new(0),
        }
    }

    // Tells how far the search is, if a line is due.
    fn look(&self) {
        let Some(seconds) = self.seconds.due() else {
            return;
        };
        let state = SearchState {
            assertion: self.assertion as u64,
            level: self.level.load(SeqCst),
            stored: self.stored.load(SeqCst),
            drawn: self.drawn.load(SeqCst),
        };
        if let Ok(line) = search_line(self.alloc, &state, seconds) {
            self.seconds.tell(line.as_str());
        }
    }
}

impl<W: Watch + Sync, A: Allocator + Copy + Sync> Gate for SearchProgress<'_, W, A> {
    fn begins(&self, level: usize, pairs: usize) {
        self.level.store(level as u64, SeqCst);
        self.stored.store(pairs as u64, SeqCst);
        self.look();
    }

    fn claimed(&self, worker: usize, rows: usize) {
        self.drawn.fetch_add(rows as u64, SeqCst);
        if worker == 0 {
            self.look();
        }
    }

    fn fired(&self, _worker: usize, _parts: usize, _tally: &Tally) {}

    fn putting(&self, _worker: usize) {}
}
