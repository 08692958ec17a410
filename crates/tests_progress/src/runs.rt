//! Runs of the programs over a text in memory, with a watch.

use program::{OneText, Resources, Stack};
use report::Buffer;
use std::alloc::Global;
use std::sync::Wait;
use std::thread::Threads;
use watch::Watch;

/// Two assertions. The search of each has two levels, of one pair each.
pub(crate) const TEXT: &str = "\
channel a
assert a -> STOP [T= a -> STOP
assert a -> STOP :[deadlock free]
";

/// Whether the program of the first word ends with this status and this output on the text, and says nothing of errors.
pub(crate) fn is_told<'w, R: Threads + Wait + Sync, W: Watch + Sync>(
    alloc: Global,
    rt: &R,
    watch: &W,
    words: &'w [&'w str],
    status: u8,
    told: &str,
) -> bool {
    let resources = Resources {
        command_line: alloc,
        alloc,
        rt,
        stack: Stack::Large,
    };
    let mut files = OneText {
        name: "script",
        text: TEXT.as_bytes(),
        alloc,
    };
    let (mut out, mut err) = (Buffer::new(alloc), Buffer::new(alloc));
    let found = match words {
        ["graph", rest @ ..] => {
            graph_program::run(&resources, rest, &mut files, watch, &mut out, &mut err)
        }
        [_, rest @ ..] => {
            explain_program::run(&resources, rest, &mut files, watch, &mut out, &mut err)
        }
        [] => 3,
    };
    found == status && out.bytes.as_slice() == told.as_bytes() && err.bytes.is_empty()
}
