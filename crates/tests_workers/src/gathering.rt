//! A gate at which workers wait for each other.

use explore::Gate;
use kept_parts::Tally;
use std::sync::atomic::AtomicU64;
use std::sync::atomic::Ordering::SeqCst;
use std::thread;

// How often a worker that waits looks before it is let go, and none waits any more.
const LOOKS: u32 = 10_000_000;

/// Holds each worker that draws from a level of a hundred rows, until so many workers have. The level before it has one
/// draw, which passes.
#[derive(Drop)]
pub(crate) struct Gathering {
    expected: u64,
    claims: AtomicU64,
    came: [AtomicU64; 4],
    gathered: AtomicU64,
    lost: AtomicU64,
}

impl Gathering {
    pub(crate) fn new(expected: u64) -> Gathering {
        Gathering {
            expected,
            claims: AtomicU64::new(0),
            came: [
                AtomicU64::new(0),
                AtomicU64::new(0),
                AtomicU64::new(0),
                AtomicU64::new(0),
            ],
            gathered: AtomicU64::new(0),
            lost: AtomicU64::new(0),
        }
    }

    /// How many workers drew from the level of a hundred rows, each counted once.
    pub(crate) fn gathered(&self) -> u64 {
        self.gathered.load(SeqCst)
    }

    // Counts the worker, unless it came before.
    fn count(&self, worker: usize) {
        if let Some(came) = self.came.get(worker) {
            if came.fetch_add(1, SeqCst) == 0 {
                self.gathered.fetch_add(1, SeqCst);
            }
        }
    }

    // Whether so many came, or one waited in vain for them.
    fn is_over(&self) -> bool {
        self.gathered() >= self.expected || self.lost.load(SeqCst) > 0
    }

    fn wait(&self) {
        for _ in 0..LOOKS {
            if self.is_over() {
                return;
            }
            thread::yield_now();
        }
        self.lost.store(1, SeqCst);
    }
}

impl Gate for Gathering {
    fn begins(&self, _level: usize, _pairs: usize) {}

    fn claimed(&self, worker: usize, _rows: usize) {
        if self.claims.fetch_add(1, SeqCst) > 0 {
            self.count(worker);
            self.wait();
        }
    }

    fn fired(&self, _worker: usize, _parts: usize, _tally: &Tally) {}

    fn putting(&self, _worker: usize) {}
}
