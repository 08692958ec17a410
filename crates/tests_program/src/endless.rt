//! Readers without an end, and readers that fail.

use crate::runs::check;
use program::{Lack, MOST_BYTES, Unread, read_beginning};
use refusing_memory::RefusesOnce;
use std::io::{Error, ErrorKind, Read, Result as IoResult};
use std::test::Fail;

// Gives spaces for ever.
#[derive(Clone, Copy, Drop)]
struct Endless;

impl Read for Endless {
    fn read(&mut self, room: &mut [u8]) -> IoResult<usize> {
        room.fill(b' ');
        Ok(room.len())
    }
}

// Gives its bytes, as many a call as there is room for, is interrupted before each, and fails so behind the last one.
#[derive(Drop)]
struct Broken<'b> {
    bytes: &'b [u8],
    interrupted: bool,
    fault: ErrorKind,
}

impl Read for Broken<'_> {
    fn read(&mut self, room: &mut [u8]) -> IoResult<usize> {
        self.interrupted = !self.interrupted;
        if self.interrupted {
            return Err(Error::from(ErrorKind::Interrupted));
        }
        match self.bytes.read(room)? {
            0 => Err(Error::from(self.fault)),
            count => Ok(count),
        }
    }
}

#[test]
fn what_does_not_end_is_too_long(rt: HostRuntime) -> Result<(), Fail> {
    let bytes = read_beginning(rt.alloc(), &mut Endless)?;
    assert_eq!(rt; bytes.len(), MOST_BYTES);
    let told = check(rt.alloc(), &rt, &bytes);
    assert!(rt; told.is_refused("refused L05 at 1:1\n"));
    Ok(())
}

#[test]
fn what_ends_is_read_whole(rt: HostRuntime) -> Result<(), Fail> {
    let mut reader: &[u8] = b"channel a";
    let bytes = read_beginning(rt.alloc(), &mut reader)?;
    assert!(rt; bytes.as_slice() == b"channel a".as_slice());
    let memory = RefusesOnce::new(rt.alloc(), 0);
    let refused = read_beginning(&memory, &mut reader).err();
    assert_eq!(rt; refused, Some(Unread::Memory));
    Ok(())
}

const FAULTS: [(ErrorKind, Unread); 6] = [
    (ErrorKind::NotFound, Unread::File(Lack::Missing)),
    (ErrorKind::NotADirectory, Unread::File(Lack::Missing)),
    (ErrorKind::IsADirectory, Unread::File(Lack::Folder)),
    (ErrorKind::PermissionDenied, Unread::File(Lack::Forbidden)),
    (ErrorKind::TimedOut, Unread::File(Lack::Broken)),
    (ErrorKind::OutOfMemory, Unread::Memory),
];

#[test]
fn what_fails_is_not_read(rt: HostRuntime) -> Result<(), Fail> {
    for (fault, unread) in &FAULTS {
        let mut reader = Broken {
            bytes: b"channel a",
            interrupted: false,
            fault: *fault,
        };
        let answer = read_beginning(rt.alloc(), &mut reader).err();
        assert_eq!(rt; answer, Some(*unread));
    }
    Ok(())
}
