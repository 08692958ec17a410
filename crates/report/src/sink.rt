//! Where the program's bytes go.

use std::alloc::Allocator;
use std::io::Write;
use thiserror::Error;

/// A push that failed.
#[derive(Clone, Copy, Debug, PartialEq, Eq, Error)]
#[error("the output failed")]
pub struct Failed;

/// Takes bytes in order.
pub trait Sink {
    ghost use Rattle.std.specs.Prelude.{◌≡◌, Bool, List, ℕ, Option, ◌||◌};
    ghost use Rattle.std.specs.Io.{WritesAtMost};
    ghost use Rattle.std.specs.Io.KnownBytes.{WriteAppends};
    ghost use Rattle.report.specs.Sending.{breaks_down};

    /// The bytes taken so far, where they are known.
    ghost taken: { Self → Option (List ℕ) };

    /// Whether a call has failed, or taken nothing of a text that is not empty.
    ghost has_failed: { Self → Bool };

    /// Takes a beginning of the text and answers its length, or fails and takes nothing.
    fn push(&mut self, text: &[u8]) -> Result<usize, Failed>
        ensures count { WritesAtMost result text.now }
        ensures bytes { WriteAppends (taken self.old) (taken self.new) result text.now }
        ensures failure { has_failed self.new
            ≡ (has_failed self.old || breaks_down result text.now) };
}

/// A sink in memory. A growth that is refused is a failure.
#[derive(Drop)]
pub struct Buffer<A: Allocator> {
    /// The bytes taken so far.
    pub bytes: Vec<u8, A>,
    failed: bool,
}

impl<A: Allocator> Buffer<A> {
    ghost use Rattle.std.specs.Prelude.{◌≡◌, [], false};

    /// An empty sink.
    pub fn new(alloc: A) -> Buffer<A>
        ensures bytes { result.bytes.items ≡ [] }
        ensures failed { result.failed ≡ false }
    {
        Buffer {
            bytes: Vec::new(alloc),
            failed: false,
        }
    }
}

impl<A: Allocator> Sink for Buffer<A> {
    ghost use Rattle.std.specs.Prelude.{Some};

    ghost taken = { λ s. Some s.bytes.items };

    ghost has_failed = { λ s. s.failed };

    fn push(&mut self, text: &[u8]) -> Result<usize, Failed> {
        match self.bytes.extend_from_slice(text) {
            Ok(()) => Ok(text.len()),
            Err(_) => {
                self.failed = true;
                Err(Failed)
            }
        }
    }
}

/// A sink over any writer, with the bytes that the writer tells.
#[derive(Drop)]
pub struct Out<W: Write> {
    writer: W,
    failed: bool,
}

impl<W: Write> Out<W> {
    ghost use Rattle.std.specs.Prelude.{◌≡◌, false};

    /// A sink that has not failed, over the writer.
    pub fn new(writer: W) -> Out<W>
        ensures writer { result.writer ≡ writer }
        ensures failed { result.failed ≡ false }
    {
        Out {
            writer,
            failed: false,
        }
    }
}

impl<W: Write> Sink for Out<W> {
    ghost taken = { λ s. W.contents s.writer };

    ghost has_failed = { λ s. s.failed };

    fn push(&mut self, text: &[u8]) -> Result<usize, Failed> {
        match self.writer.write(text) {
            Ok(count) => {
                if count == 0 && !text.is_empty() {
                    self.failed = true;
                }
                Ok(count)
            }
            Err(_) => {
                self.failed = true;
                Err(Failed)
            }
        }
    }
}
