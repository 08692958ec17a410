//! What a run gives.

use crate::case::Case;
use crate::lines::script_and_lines;
use program::{OneText, Resources, Stack};
use report::Buffer;
use std::alloc::Global;
use std::fmt;
use std::sync::Wait;
use std::thread::Threads;
use watch::Unwatched;

/// The status of a run, and what it gave to its two outputs.
#[derive(Drop)]
pub(crate) struct Told {
    status: u8,
    out: Vec<u8>,
    err: Vec<u8>,
}

/// Whether the bytes are the text, but for line ends behind both.
fn is_text(bytes: &[u8], text: &str) -> bool {
    match str::from_utf8(bytes) {
        Ok(given) => given.trim_end_matches('\n') == text,
        Err(_) => false,
    }
}

// A line of a report up to the trace that it shows.
fn word_of(line: &str) -> &str {
    match line.split_once(" trace ") {
        Some((word, _)) => word,
        None => line,
    }
}

/// Whether the lines of two reports are the same up to the traces that they show.
fn are_alike(report: &[u8], other: &[u8]) -> bool {
    let (Ok(report), Ok(other)) = (str::from_utf8(report), str::from_utf8(other)) else {
        return false;
    };
    let mut lines = report.lines().zip(other.lines());
    report.lines().count() == other.lines().count()
        && lines.all(|(line, other)| word_of(line) == word_of(other))
}

impl Told {
    /// What the run gave to its output, where nothing was refused and that is a text.
    pub(crate) fn given(&self) -> Option<&str> {
        if self.status < 3 {
            str::from_utf8(&self.out).ok()
        } else {
            None
        }
    }

    /// Whether the run gave the words that another run of the same case gave, and a report.
    pub(crate) fn is_alike(&self, other: &Told) -> bool {
        self.status < 3 && self.status == other.status && are_alike(&self.out, &other.out)
    }

    /// Whether the run gave what the case says.
    pub(crate) fn is_as_said(&self, case: &Case<'_>) -> bool {
        match (case.status, self.status) {
            ("fine", status) => status < 3,
            ("begins", 0) => self.err.is_empty() && self.out.starts_with(case.told.as_bytes()),
            ("3", 3) | ("noted", 0) => self.out.is_empty() && is_text(&self.err, case.told),
            ("0", 0) | ("1", 1) | ("2", 2) => {
                self.err.is_empty() && is_text(&self.out, case.told)
            }
            _ => false,
        }
    }
}

impl fmt::Display for Told {
    fn fmt<W: fmt::Write>(&self, f: &mut fmt::Formatter<W>) -> fmt::Result {
        let out = str::from_utf8(&self.out).unwrap_or("no text");
        let err = str::from_utf8(&self.err).unwrap_or("no text");
        write!(f, "gave {}\n{out}{err}", self.status)
    }
}

// The name of the one file: that of standard input where the words name that, and else `script`.
fn file_name(words: &[&str]) -> &'static str {
    if words.iter().any(|word| *word == "-") {
        "-"
    } else {
        "script"
    }
}

/// What the program of these words gives, where the file `script` holds the text, or where they name standard input that. Of
/// a walk the lines stand behind the script.
pub(crate) fn told_by<'w, R: Threads + Wait + Sync>(
    rt: &R,
    alloc: Global,
    words: &'w [&'w str],
    text: &str,
) -> Told {
    let (script, lines) = script_and_lines(text);
    let resources = Resources {
        command_line: alloc,
        alloc,
        rt,
        stack: Stack::Large,
    };
    let mut files = OneText {
        name: file_name(words),
        text: script.as_bytes(),
        alloc,
    };
    let mut input = lines.as_bytes();
    let (mut out, mut err) = (Buffer::new(alloc), Buffer::new(alloc));
    let status = match words {
        ["explain", rest @ ..] => {
            explain_program::run(&resources, rest, &mut files, &Unwatched, &mut out, &mut err)
        }
        ["graph", rest @ ..] => {
            graph_program::run(&resources, rest, &mut files, &Unwatched, &mut out, &mut err)
        }
        ["walk", rest @ ..] => walk_program::run(
            &resources, rest, &mut files, &mut input, &mut out, &mut err,
        ),
        [_, rest @ ..] => program::run(&resources, rest, &mut files, &mut out, &mut err),
        [] => 3,
    };
    Told {
        status,
        out: out.bytes,
        err: err.bytes,
    }
}
