//! A gate that holds workers.

use explore::Gate;
use kept_parts::Tally;
use std::sync::atomic::AtomicU64;
use std::sync::atomic::Ordering::SeqCst;
use std::thread;

// How often a worker that is held looks before it is let go.
const LOOKS: u32 = 10_000_000;

// How many batches a level of a hundred rows has.
const BATCHES: u64 = 4;

/// Holds the worker of the first put in each of some levels of a hundred rows, until others have put so often. The
/// level before them has one put, which passes.
#[derive(Drop)]
pub(crate) struct Holding {
    levels: u64,
    others: u64,
    claims: AtomicU64,
    puts: AtomicU64,
    held: AtomicU64,
    seen: AtomicU64,
}

impl Holding {
    pub(crate) fn new(levels: u64, others: u64) -> Holding {
        Holding {
            levels,
            others,
            claims: AtomicU64::new(0),
            puts: AtomicU64::new(0),
            held: AtomicU64::new(0),
            seen: AtomicU64::new(0),
        }
    }

    /// Whether a worker was held in each level, and saw each time what it waited for. No put is without its claim.
    pub(crate) fn held_and_saw(&self) -> bool {
        let (held, seen) = (self.held.load(SeqCst), self.seen.load(SeqCst));
        held == self.levels && seen == held && self.claims.load(SeqCst) == self.puts.load(SeqCst)
    }

    // Whether the put of that number is the first of a level in which one is held.
    fn is_held(&self, put: u64) -> bool {
        put > 0 && (put - 1) % BATCHES == 0 && (put - 1) / BATCHES < self.levels
    }

    // Waits until others have put after the put of that number. Its worker puts nothing meanwhile.
    fn hold(&self, put: u64) {
        self.held.fetch_add(1, SeqCst);
        for _ in 0..LOOKS {
            if self.puts.load(SeqCst) > put.saturating_add(self.others) {
                self.seen.fetch_add(1, SeqCst);
                return;
            }
            thread::yield_now();
        }
    }
}

impl Gate for Holding {
    fn begins(&self, _level: usize, _pairs: usize) {}

    fn claimed(&self, _worker: usize, _rows: usize) {
        self.claims.fetch_add(1, SeqCst);
    }

    fn fired(&self, _worker: usize, _parts: usize, _tally: &Tally) {}

    fn putting(&self, _worker: usize) {
        let put = self.puts.fetch_add(1, SeqCst);
        if self.is_held(put) {
            self.hold(put);
        }
    }
}
