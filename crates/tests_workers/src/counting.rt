//! A gate that counts.

use explore::Gate;
use kept_parts::Tally;
use std::sync::atomic::AtomicU64;
use std::sync::atomic::Ordering::SeqCst;

/// Records what it was told last of how a worker has fired, and how often it was told.
#[derive(Drop)]
pub(crate) struct Counting {
    told: AtomicU64,
    parts: AtomicU64,
    trees: AtomicU64,
    whole: AtomicU64,
}

impl Counting {
    pub(crate) fn new() -> Counting {
        Counting {
            told: AtomicU64::new(0),
            parts: AtomicU64::new(0),
            trees: AtomicU64::new(0),
            whole: AtomicU64::new(0),
        }
    }

    /// How often it was told, how many parts were known then, and how many terms were made as trees, and fired as a whole.
    pub(crate) fn counts(&self) -> [u64; 4] {
        [
            self.told.load(SeqCst),
            self.parts.load(SeqCst),
            self.trees.load(SeqCst),
            self.whole.load(SeqCst),
        ]
    }
}

impl Gate for Counting {
    fn begins(&self, _level: usize, _pairs: usize) {}

    fn claimed(&self, _worker: usize, _rows: usize) {}

    fn fired(&self, _worker: usize, parts: usize, tally: &Tally) {
        self.told.fetch_add(1, SeqCst);
        self.parts.store(parts as u64, SeqCst);
        self.trees.store(tally.trees(), SeqCst);
        self.whole.store(tally.whole(), SeqCst);
    }

    fn putting(&self, _worker: usize) {}
}
