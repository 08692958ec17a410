//! Runs of the program over texts in memory.

use csp_term::AllocHandle;
use program::{Files, OneText, Resources, Stack, run};
use report::Buffer;
use std::alloc::Global;
use std::sync::Wait;
use std::thread::Threads;

/// What a run answered and gave to its two outputs.
#[derive(Drop)]
pub(crate) struct Told {
    pub(crate) status: u8,
    pub(crate) out: Vec<u8>,
    pub(crate) err: Vec<u8>,
}

impl Told {
    pub(crate) fn is(&self, status: u8, out: &str, err: &str) -> bool {
        self.status == status
            && self.out.as_slice() == out.as_bytes()
            && self.err.as_slice() == err.as_bytes()
    }

    pub(crate) fn is_refused(&self, line: &str) -> bool {
        self.is(3, "", line)
    }

    // The line of a refusal goes to the error output.
    pub(crate) fn is_answered(&self, status: u8, lines: &str) -> bool {
        if status == 3 {
            return self.is_refused(lines);
        }
        self.is(status, lines, "")
    }
}

// A run with these resources, whose outputs have room.
pub(crate) fn run_with<'w, A: AllocHandle + Send + Sync, R: Threads + Wait + Sync, F: Files<A>>(
    resources: &Resources<'_, A, R>,
    words: &'w [&'w str],
    files: &mut F,
) -> Told {
    let mut out = Buffer::new(resources.command_line);
    let mut err = Buffer::new(resources.command_line);
    let status = run(resources, words, files, &mut out, &mut err);
    Told {
        status,
        out: out.bytes,
        err: err.bytes,
    }
}

// What a run works with whose stack is large enough.
pub(crate) fn resources<A, R>(room: Global, alloc: A, rt: &R) -> Resources<'_, A, R> {
    resources_on(Stack::Large, room, alloc, rt)
}

// What a run works with on that stack.
pub(crate) fn resources_on<A, R>(
    stack: Stack,
    room: Global,
    alloc: A,
    rt: &R,
) -> Resources<'_, A, R> {
    Resources {
        command_line: room,
        alloc,
        rt,
        stack,
    }
}

// A run whose memory is the allocator's.
pub(crate) fn run_in<'w, A: AllocHandle + Send + Sync, R: Threads + Wait + Sync, F: Files<A>>(
    room: Global,
    alloc: A,
    rt: &R,
    words: &'w [&'w str],
    files: &mut F,
) -> Told {
    run_with(&resources(room, alloc, rt), words, files)
}

// A run on that stack and on the words, where the file `script` holds the text.
pub(crate) fn run_on_stack<'w, R: Threads + Wait + Sync>(
    stack: Stack,
    alloc: Global,
    rt: &R,
    words: &'w [&'w str],
    text: &[u8],
) -> Told {
    let mut files = OneText {
        name: "script",
        text,
        alloc,
    };
    run_with(&resources_on(stack, alloc, alloc, rt), words, &mut files)
}

// A run on the words, where the file of that name holds the text.
pub(crate) fn run_over<'w, R: Threads + Wait + Sync>(
    alloc: Global,
    rt: &R,
    name: &str,
    words: &'w [&'w str],
    text: &[u8],
) -> Told {
    let mut files = OneText { name, text, alloc };
    run_in(alloc, alloc, rt, words, &mut files)
}

// A run on the words, where the file `script` holds the text.
pub(crate) fn run_on<'w, R: Threads + Wait + Sync>(
    alloc: Global,
    rt: &R,
    words: &'w [&'w str],
    text: &[u8],
) -> Told {
    run_over(alloc, rt, "script", words, text)
}

pub(crate) fn check<R: Threads + Wait + Sync>(alloc: Global, rt: &R, text: &[u8]) -> Told {
    run_on(alloc, rt, &["script"], text)
}
