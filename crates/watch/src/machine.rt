//! The watch of the machine.

use crate::memory::most_memory;
use crate::watch::Watch;
use std::rt::{Clock, Files};
use std::time::Instant;

/// The watch of the machine: its clock, its file on the memory of the run, and its error output, which takes the lines.
#[derive(Clone, Copy, Drop)]
pub struct MachineWatch<'r, R> {
    machine: &'r R,
    begun: Option<Instant>,
    is_watched: bool,
}

impl<'r, R: Clock> MachineWatch<'r, R> {
    /// That of a run which begins now, and is watched or not.
    pub fn begin(machine: &'r R, is_watched: bool) -> MachineWatch<'r, R> {
        MachineWatch {
            machine,
            begun: Instant::now(machine).ok(),
            is_watched,
        }
    }
}

impl<R: Clock + Eprint + Files> Watch for MachineWatch<'_, R> {
    fn elapsed(&self) -> Option<u64> {
        let elapsed = self.begun?.elapsed(self.machine).ok()?;
        u64::try_from(elapsed.as_millis()).ok()
    }

    fn most_memory(&self) -> Option<u64> {
        most_memory(self.machine)
    }

    fn is_watched(&self) -> bool {
        self.is_watched
    }

    fn tell(&self, line: &str) {
        let _ = eprintln!(self.machine; "{line}");
    }
}
