//! The seconds after which a line is due.

ghost use Rattle.std.specs.Prelude.{◌≡◌, ◌≤◌, ◌<◌, ◌/◌, None, IfSome};

use std::sync::atomic::AtomicU64;
use std::sync::atomic::Ordering::SeqCst;
use watch::Watch;

/// The seconds of a piece of work, after each of which a line is due.
#[derive(Drop)]
pub(crate) struct Seconds<'w, W> {
    watch: &'w W,
    // When it began, if it is watched and there is a clock.
    begun: Option<u64>,
    // The whole seconds since then at which a line was told last.
    told: AtomicU64,
}

impl<'w, W: Watch> Seconds<'w, W> {
    /// Those of a piece of work that begins now. If it is not watched, no line is ever due.
    pub(crate) fn begin(watch: &'w W, is_watched: bool) -> Seconds<'w, W> {
        let begun = if is_watched { watch.elapsed() } else { None };
        Seconds {
            watch,
            begun,
            told: AtomicU64::new(0),
        }
    }

    /// The whole seconds that the work has gone on, if a line is due, which is then taken for told. There is one at least.
    pub(crate) fn due(&self) -> Option<u64>
        ensures { IfSome result (λ seconds. 1 ≤ seconds) }
    {
        // The clock is not looked at where nothing is ever due.
        let begun = self.begun?;
        let elapsed = self.watch.elapsed()?.checked_sub(begun)?;
        let seconds = due_after(self.told.load(SeqCst), elapsed)?;
        self.told.store(seconds, SeqCst);
        Some(seconds)
    }

    /// Gives the watch a line.
    pub(crate) fn tell(&self, line: &str) {
        self.watch.tell(line);
    }
}

// The whole seconds in so many milliseconds, if they are more than those at which a line was told last.
fn due_after(told: u64, elapsed: u64) -> Option<u64>
    ensures due { IfSome result (λ seconds. (seconds ≡ elapsed / 1000) × (told < seconds)) }
    ensures not_due { result ≡ None → elapsed / 1000 ≤ told }
{
    let seconds = elapsed / 1000;
    if told < seconds { Some(seconds) } else { None }
}
