//! Posts that look on.

ghost use Rattle.std.specs.Prelude.{⊤};

use explore::Post;
use pair_store::{Batch, PutFault, Task};
use std::alloc::Global;
use std::sync::atomic::AtomicU64;
use std::sync::atomic::Ordering::SeqCst;

/// Records how long each batch is, and how many places come in the order of a level, whose places it knows.
#[derive(Drop)]
pub(crate) struct Recorder<'l> {
    places: &'l [usize],
    puts: AtomicU64,
    lengths: [AtomicU64; 3],
    pairs: AtomicU64,
    in_order: AtomicU64,
}

impl<'l> Recorder<'l> {
    pub(crate) fn new(places: &'l [usize]) -> Recorder<'l> {
        Recorder {
            places,
            puts: AtomicU64::new(0),
            lengths: [AtomicU64::new(0), AtomicU64::new(0), AtomicU64::new(0)],
            pairs: AtomicU64::new(0),
            in_order: AtomicU64::new(0),
        }
    }

    /// The lengths of the first three batches, 0 where there was none.
    pub(crate) fn lengths(&self) -> [u64; 3] {
        let [first, second, third] = &self.lengths;
        [first.load(SeqCst), second.load(SeqCst), third.load(SeqCst)]
    }

    /// Whether each place was the next one of the level, and no more than three batches came.
    pub(crate) fn is_in_order(&self) -> bool {
        self.puts.load(SeqCst) <= 3 && self.pairs.load(SeqCst) == self.in_order.load(SeqCst)
    }

    fn record(&self, place: usize) {
        let position = self.pairs.fetch_add(1, SeqCst);
        if self.places.get(position as usize) == Some(&place) {
            self.in_order.fetch_add(1, SeqCst);
        }
    }
}

impl<'b, 'l> Post<Batch<'b, Global>> for Recorder<'l> {
    ghost takes = { λ batch. ⊤ };

    fn take(&self) -> Option<Task> {
        None
    }

    fn put(&self, batch: Batch<'b, Global>) -> Result<(), PutFault> {
        let put = self.puts.fetch_add(1, SeqCst);
        if let Some(length) = self.lengths.get(put as usize) {
            length.store(batch.rows().len() as u64, SeqCst);
        }
        for entry in batch.rows() {
            self.record(entry.row.place);
        }
        Ok(())
    }
}

/// Refuses one put, and hands the others on.
#[derive(Drop)]
pub(crate) struct Refusing<'p, P> {
    post: &'p P,
    refused: u64,
    fault: PutFault,
    puts: AtomicU64,
}

impl<'p, P> Refusing<'p, P> {
    /// Refuses the put of that number, where the first one has 0.
    pub(crate) fn new(post: &'p P, refused: u64, fault: PutFault) -> Refusing<'p, P> {
        let puts = AtomicU64::new(0);
        Refusing {
            post,
            refused,
            fault,
            puts,
        }
    }
}

impl<'b, 'p, P: Post<Batch<'b, Global>>> Post<Batch<'b, Global>> for Refusing<'p, P> {
    ghost takes = { P.takes };

    fn take(&self) -> Option<Task> {
        self.post.take()
    }

    fn put(&self, batch: Batch<'b, Global>) -> Result<(), PutFault> {
        if self.puts.fetch_add(1, SeqCst) == self.refused {
            return Err(self.fault);
        }
        self.post.put(batch)
    }
}
