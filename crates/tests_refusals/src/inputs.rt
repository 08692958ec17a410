//! Inputs that fail.

use crate::runs::TEXT;
use program::{OneText, Resources, Stack};
use report::Buffer;
use std::alloc::Global;
use std::io::{Error, ErrorKind, Read, Result as IoResult};
use std::test::Fail;

/// Gives its bytes, and fails behind the last one.
#[derive(Drop)]
struct Broken<'b> {
    bytes: &'b [u8],
}

impl Read for Broken<'_> {
    fn read(&mut self, room: &mut [u8]) -> IoResult<usize> {
        match self.bytes.read(room)? {
            0 => Err(Error::from(ErrorKind::BrokenPipe)),
            count => Ok(count),
        }
    }
}

/// What an input gives before it fails, and what a walk gives till then. A line without its end is lost.
static ROWS: &[(&str, &str)] = &[
    ("", "state 0\n      a -> STOP\n  1 a\n"),
    ("1", "state 0\n      a -> STOP\n  1 a\n"),
    (
        "1\n",
        "state 0\n      a -> STOP\n  1 a\nstate 1\n      STOP\n  no step\n",
    ),
];

/// Hands out the table.
fn rows() -> &'static [(&'static str, &'static str)] {
    ROWS
}

/// Whether a walk by this input gives that, and says that the input has failed.
fn is_refused(alloc: Global, lines: &str, told: &str) -> bool {
    let resources = Resources {
        command_line: alloc,
        alloc,
        rt: &(),
        stack: Stack::Large,
    };
    let mut files = OneText {
        name: "script",
        text: TEXT.as_bytes(),
        alloc,
    };
    let mut input = Broken {
        bytes: lines.as_bytes(),
    };
    let (mut out, mut err) = (Buffer::new(alloc), Buffer::new(alloc));
    let words = &["script", "1"];
    let status = walk_program::run(
        &resources, words, &mut files, &mut input, &mut out, &mut err,
    );
    status == 3
        && out.bytes.as_slice() == told.as_bytes()
        && err.bytes.as_slice() == "refused input\n".as_bytes()
}

#[test]
fn an_input_that_fails_is_refused(rt: HostRuntime) -> Result<(), Fail> {
    for (lines, told) in rows() {
        assert!(rt; is_refused(rt.alloc(), lines, told), "{lines:?}");
    }
    Ok(())
}
