//! A writer that fails.

use std::io::{Error, ErrorKind, Result, Write};

/// Takes what there is room for, and fails where there is none.
#[derive(Drop)]
pub(crate) struct Full<'r> {
    room: &'r mut [u8],
}

impl<'r> Full<'r> {
    pub(crate) fn new(room: &'r mut [u8]) -> Full<'r> {
        Full { room }
    }
}

impl Write for Full<'_> {
    fn write(&mut self, text: &[u8]) -> Result<usize> {
        match self.room.write(text)? {
            0 => Err(Error::from(ErrorKind::WriteZero)),
            count => Ok(count),
        }
    }

    fn flush(&mut self) -> Result<()> {
        Ok(())
    }
}
