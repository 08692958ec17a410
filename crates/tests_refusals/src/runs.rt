//! Runs of `graph` and `walk` over a text in memory, and into some bytes.

use csp_term::AllocHandle;
use program::{OneText, Resources, Stack};
use report::{Buffer, Out};
use std::alloc::Global;
use watch::Unwatched;

/// Which program is run.
#[derive(Clone, Copy, Debug, PartialEq, Eq)]
pub(crate) enum Program {
    Graph,
    Walk,
}

/// The script of each run.
pub(crate) const TEXT: &str = "channel a\nassert STOP [T= a -> STOP\n";

const GRAPH: &str = "des (0, 1, 2)\n(0, \"a\", 1)\n";

/// The lines that a walk is given.
const LINES: &str = "1\nu\nq\n";

const WALK: &str = "\
state 0
      a -> STOP
  1 a
state 1
      STOP
  no step
state 0
      a -> STOP
  1 a
";

impl Program {
    /// All that it gives for the script.
    pub(crate) fn whole(self) -> &'static str {
        match self {
            Program::Graph => GRAPH,
            Program::Walk => WALK,
        }
    }
}

/// The status of a run, and what it gave to its error output.
#[derive(Drop)]
pub(crate) struct Told {
    status: u8,
    err: Vec<u8>,
}

impl Told {
    /// Whether it ends with this status, and with this on its error output.
    pub(crate) fn is(&self, status: u8, err: &str) -> bool {
        self.status == status && self.err.as_slice() == err.as_bytes()
    }
}

/// A run of the program with that memory and stack, on the first assertion of the text, into the bytes.
pub(crate) fn run<A: AllocHandle>(
    program: Program,
    room: Global,
    alloc: A,
    stack: Stack,
    text: &[u8],
    taken: &mut [u8],
) -> Told {
    let resources = Resources {
        command_line: room,
        alloc,
        rt: &(),
        stack,
    };
    let mut files = OneText {
        name: "script",
        text,
        alloc,
    };
    let words = &["script", "1"];
    let mut input = LINES.as_bytes();
    let (mut out, mut err) = (Out::new(taken), Buffer::new(room));
    let status = match program {
        Program::Graph => graph_program::run(
            &resources, words, &mut files, &Unwatched, &mut out, &mut err,
        ),
        Program::Walk => walk_program::run(
            &resources, words, &mut files, &mut input, &mut out, &mut err,
        ),
    };
    Told {
        status,
        err: err.bytes,
    }
}

/// Whether the bytes that were taken are a beginning of all that the program gives. A byte that was not taken is 0.
pub(crate) fn is_beginning(program: Program, taken: &[u8]) -> bool {
    let count = taken.iter().take_while(|byte| **byte != 0).count();
    program.whole().as_bytes().starts_with(&taken[..count])
}
