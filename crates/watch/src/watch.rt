//! The clock and the memory of a run, and who watches it.

/// The clock and the memory of a run, and who watches it. No answer depends on what it tells.
pub trait Watch {
    /// The milliseconds since the run began, where there is a clock.
    fn elapsed(&self) -> Option<u64>;

    /// The kilobytes of memory that the run has had at most, where that is told.
    fn most_memory(&self) -> Option<u64>;

    /// Whether someone watches, who has not asked for it.
    fn is_watched(&self) -> bool;

    /// Takes a line for the one who watches. A line that cannot be told is left out.
    fn tell(&self, line: &str);
}

/// No clock, and no one who watches.
#[derive(Clone, Copy, Drop)]
pub struct Unwatched;

impl Watch for Unwatched {
    fn elapsed(&self) -> Option<u64> {
        None
    }

    fn most_memory(&self) -> Option<u64> {
        None
    }

    fn is_watched(&self) -> bool {
        false
    }

    fn tell(&self, _line: &str) {}
}
