//! An allocator that refuses one request.

ghost use Rattle.std.specs.Prelude.{◌≡◌, IfSome};

use std::alloc::{AllocError, Allocator};
use std::sync::atomic::AtomicU64;
use std::sync::atomic::Ordering::SeqCst;

/// The memory of an allocator, but for one request. A block is given back to that allocator.
#[derive(Drop)]
pub struct RefusesOnce<A> {
    inner: A,
    refused: u64,
    asked: AtomicU64,
}

impl<A> RefusesOnce<A> {
    /// Refuses the request of that number, where the first one has 0.
    pub fn new(inner: A, refused: u64) -> RefusesOnce<A> {
        let asked = AtomicU64::new(0);
        RefusesOnce {
            inner,
            refused,
            asked,
        }
    }

    /// Whether the request was made that is refused.
    pub fn has_refused(&self) -> bool {
        self.refused < self.asked.load(SeqCst)
    }

    // Counts a request, and answers the allocator where it is granted.
    fn granted(&self) -> Option<&A>
        ensures { IfSome result (λ inner. inner.now ≡ self.now.inner) }
    {
        if self.asked.fetch_add(1, SeqCst) == self.refused {
            None
        } else {
            Some(&self.inner)
        }
    }
}

unsafe impl<A: Allocator> Allocator for RefusesOnce<A> {
    ghost dealloc_token = { λ memory ty ptr. A.dealloc_token memory.inner ty ptr };

    fn allocate(&self, size: usize, align: usize) -> Result<*mut u8, AllocError> {
        match self.granted() {
            Some(inner) => inner.allocate(size, align),
            None => Err(AllocError),
        }
    }

    unsafe fn deallocate(&self, ptr: *mut u8, size: usize, align: usize) {
        self.inner.deallocate(ptr, size, align);
    }
}
