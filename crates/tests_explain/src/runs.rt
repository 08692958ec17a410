//! Runs of the program over texts in memory.

use csp_term::AllocHandle;
use explain_program::run;
use program::{Files, OneText, Resources, Stack};
use report::Buffer;
use std::alloc::Global;
use std::sync::Wait;
use std::thread::Threads;
use watch::Unwatched;

/// What a run answered and gave to its two outputs.
#[derive(Drop)]
pub(crate) struct Told {
    pub(crate) status: u8,
    pub(crate) out: Vec<u8>,
    pub(crate) err: Vec<u8>,
}

impl Told {
    pub(crate) fn is(&self, status: u8, out: &str, err: &str) -> bool {
        self.status == status
            && self.out.as_slice() == out.as_bytes()
            && self.err.as_slice() == err.as_bytes()
    }
}

// What a run works with on that stack.
pub(crate) fn resources<A, R>(stack: Stack, room: Global, alloc: A, rt: &R) -> Resources<'_, A, R> {
    Resources {
        command_line: room,
        alloc,
        rt,
        stack,
    }
}

// A run with these resources, whose outputs have room.
fn run_with<'w, A: AllocHandle + Send + Sync, R: Threads + Wait + Sync, F: Files<A>>(
    resources: &Resources<'_, A, R>,
    words: &'w [&'w str],
    files: &mut F,
) -> Told {
    let mut out = Buffer::new(resources.command_line);
    let mut err = Buffer::new(resources.command_line);
    let status = run(resources, words, files, &Unwatched, &mut out, &mut err);
    Told {
        status,
        out: out.bytes,
        err: err.bytes,
    }
}

// A run whose memory is the allocator's.
pub(crate) fn run_in<'w, A: AllocHandle + Send + Sync, R: Threads + Wait + Sync, F: Files<A>>(
    room: Global,
    alloc: A,
    rt: &R,
    words: &'w [&'w str],
    files: &mut F,
) -> Told {
    run_with(&resources(Stack::Large, room, alloc, rt), words, files)
}

// A run on that stack and on the words, where the file `script` holds the text.
pub(crate) fn run_on_stack<'w, R: Threads + Wait + Sync>(
    stack: Stack,
    alloc: Global,
    rt: &R,
    words: &'w [&'w str],
    text: &[u8],
) -> Told {
    let mut files = OneText {
        name: "script",
        text,
        alloc,
    };
    run_with(&resources(stack, alloc, alloc, rt), words, &mut files)
}

// A run on the file of that name, which holds the text.
pub(crate) fn run_on_file<R: Threads + Wait + Sync>(
    alloc: Global,
    rt: &R,
    name: &str,
    text: &[u8],
) -> Told {
    let mut files = OneText { name, text, alloc };
    run_with(
        &resources(Stack::Large, alloc, alloc, rt),
        &[name],
        &mut files,
    )
}

// A run on the words, where the file `script` holds the text.
pub(crate) fn run_on<'w, R: Threads + Wait + Sync>(
    alloc: Global,
    rt: &R,
    words: &'w [&'w str],
    text: &[u8],
) -> Told {
    run_on_stack(Stack::Large, alloc, rt, words, text)
}
