//! The beginning of what a reader gives.

ghost use Rattle.std.specs.Prelude.{◌≡◌, ◌≤◌, ◌<◌, length, take, vec_len, IfOk, IfSome};
ghost use Rattle.std.specs.Io.KnownBytes.{Consumes, IsAtEnd};

use crate::files::{Lack, Unread};
use std::alloc::{AllocError, Allocator};
use std::io::{ErrorKind, Read};

/// How many bytes of a file are read at most.
pub const MOST_BYTES: usize = 65_537;

/// The first `MOST_BYTES` bytes of what the reader gives, or all where it gives no more. Nothing behind them is read.
///
/// `File` comes where the reader failed, and `Memory` where memory was refused.
pub fn read_beginning<A: Allocator, R: Read>(alloc: A, reader: &mut R) -> Result<Vec<u8, A>, Unread>
    ensures few { IfOk result (λ bytes. length bytes.items ≤ 65537) }
    ensures beginning { IfOk result (λ bytes.
        IfSome (R.remaining reader.old) (λ all. bytes.items ≡ take 65537 all)) }
{
    let mut bytes = room(alloc)?;
    let filled = fill(reader, &mut bytes)?;
    bytes.truncate(filled);
    Ok(bytes)
}

fn room<A: Allocator>(alloc: A) -> Result<Vec<u8, A>, AllocError>
    ensures { IfOk result (λ bytes. vec_len bytes ≡ 65537) }
{
    vec![in alloc; 0; MOST_BYTES]
}

// Fills the room as far as the reader gives bytes for it, and answers how many of them it has.
fn fill<R: Read>(reader: &mut R, room: &mut [u8]) -> Result<usize, Unread>
    ensures within { IfOk result (λ count. count ≤ length room.new) }
    ensures bytes { IfOk result (λ count.
        Consumes (R.remaining reader.old) (R.remaining reader.new) (take count room.new)) }
    ensures end { IfOk result (λ count. count < length room.new
        → IsAtEnd (R.remaining reader.new)) }
{
    let mut filled = 0;
    for _ in 0..u64::MAX {
        match reader.read(&mut room[filled..]) {
            Ok(0) => return Ok(filled),
            Ok(count) => filled += count,
            Err(error) if error.kind() == ErrorKind::Interrupted => {}
            Err(error) => return Err(error.into()),
        }
    }
    Err(Unread::File(Lack::Broken))
}
