//! How far the making of a graph is.

use crate::lines::graph_line;
use crate::seconds::Seconds;
use state_graph::Observer;
use std::alloc::Allocator;
use watch::Watch;

/// How far the making of a graph is.
#[derive(Drop)]
pub struct GraphProgress<'w, W, A> {
    alloc: A,
    seconds: Seconds<'w, W>,
}

impl<'w, W: Watch, A: Allocator + Copy> GraphProgress<'w, W, A> {
    /// That of a graph that is begun now. If it is not watched, nothing is told of it.
    pub fn begin(alloc: A, watch: &'w W, is_watched: bool) -> GraphProgress<'w, W, A> {
        GraphProgress {
            alloc,
            seconds: Seconds::begin(watch, is_watched),
        }
    }
}

impl<W: Watch, A: Allocator + Copy> Observer for GraphProgress<'_, W, A> {
    fn found(&self, states: usize) {
        let Some(seconds) = self.seconds.due() else {
            return;
        };
        if let Ok(line) = graph_line(self.alloc, states as u64, seconds) {
            self.seconds.tell(line.as_str());
        }
    }
}
