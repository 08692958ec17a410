//! A watch whose clock goes on at each look, and may stand still at last.

use std::sync::atomic::Ordering::SeqCst;
use std::sync::atomic::{AtomicBool, AtomicU64, AtomicUsize};
use watch::Watch;

/// A watch whose clock goes on by a step at each look until it stands still, and that compares each line it takes with the
/// next of a list.
#[derive(Drop)]
pub(crate) struct Ticking<'l> {
    step: u64,
    last: u64,
    is_watched: bool,
    lines: &'l [&'l str],
    time: AtomicU64,
    told: AtomicUsize,
    has_other: AtomicBool,
}

impl<'l> Ticking<'l> {
    /// That with a step of so many milliseconds up to the last one, and with these lines.
    pub(crate) fn new(step: u64, last: u64, is_watched: bool, lines: &'l [&'l str]) -> Ticking<'l> {
        Ticking {
            step,
            last,
            is_watched,
            lines,
            time: AtomicU64::new(0),
            told: AtomicUsize::new(0),
            has_other: AtomicBool::new(false),
        }
    }

    /// Whether the lines were told, one after the other, and no others.
    pub(crate) fn is_told(&self) -> bool {
        self.told.load(SeqCst) == self.lines.len() && !self.has_other.load(SeqCst)
    }
}

impl Watch for Ticking<'_> {
    fn elapsed(&self) -> Option<u64> {
        Some(self.time.fetch_add(self.step, SeqCst).min(self.last))
    }

    fn most_memory(&self) -> Option<u64> {
        Some(216_064)
    }

    fn is_watched(&self) -> bool {
        self.is_watched
    }

    fn tell(&self, line: &str) {
        let place = self.told.fetch_add(1, SeqCst);
        if self.lines.get(place) != Some(&line) {
            self.has_other.store(true, SeqCst);
        }
    }
}
