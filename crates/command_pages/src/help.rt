//! What a program tells of its command line.

use program::{OneText, Resources, Stack};
use report::Buffer;
use std::alloc::Global;
use std::sync::Wait;
use std::thread::Threads;
use watch::Unwatched;

/// What the program of that name gives where its help is asked for; nothing where there is no such program.
pub(crate) fn help_of<R: Threads + Wait + Sync>(rt: &R, alloc: Global, program: &str) -> Vec<u8> {
    let resources = Resources {
        command_line: alloc,
        alloc,
        rt,
        stack: Stack::Large,
    };
    let mut files = OneText {
        name: "script",
        text: b"",
        alloc,
    };
    let words = ["--help"];
    let (mut out, mut err) = (Buffer::new(alloc), Buffer::new(alloc));
    match program {
        "refcheck" => {
            program::run(&resources, &words, &mut files, &mut out, &mut err);
        }
        "explain" => {
            explain_program::run(
                &resources, &words, &mut files, &Unwatched, &mut out, &mut err,
            );
        }
        "graph" => {
            graph_program::run(
                &resources, &words, &mut files, &Unwatched, &mut out, &mut err,
            );
        }
        "walk" => {
            let mut none: &[u8] = b"";
            walk_program::run(
                &resources, &words, &mut files, &mut none, &mut out, &mut err,
            );
        }
        _ => {}
    }
    out.bytes
}
