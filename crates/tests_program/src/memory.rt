//! Runs that are refused memory.

use crate::outcomes::{BEYOND_STOP, CHAIN, Row, WITHIN_PREFIX};
use crate::runs::{Told, run_in};
use program::{Files, OneText, Unread};
use refusing_memory::RefusesOnce;
use std::alloc::Global;
use std::process::Abort;
use std::sync::Wait;
use std::test::Fail;
use std::thread::Threads;

/// No memory for any file.
#[derive(Clone, Copy, Drop)]
pub(crate) struct NoMemory;

impl Files<Global> for NoMemory {
    ghost may_hold = { λ _ _ _. ⊥ };

    ghost may_lack = { λ _ _ _. ⊥ };

    fn read(&mut self, _name: &str) -> Result<Vec<u8>, Unread> {
        Err(Unread::Memory)
    }
}

#[test]
fn a_file_without_memory_is_refused(rt: HostRuntime) -> Result<(), Fail> {
    let told = run_in(rt.alloc(), rt.alloc(), &rt, &["script"], &mut NoMemory);
    assert!(rt; told.is_refused("refused memory\n"));
    Ok(())
}

// A run: its words, the text with its report, and the status. Behind them the reports in which an answer is
// `unknown memory` instead.
type Run = (&'static [&'static str], Row, u8, &'static [&'static str]);

const FAILS: Run = (&["script"], BEYOND_STOP, 1, &["1 unknown memory\n"]);

const FAILS_BY_TWO: Run = (
    &["--workers=2", "script"],
    BEYOND_STOP,
    1,
    &["1 unknown memory\n"],
);

const HOLDS: Run = (&["script"], WITHIN_PREFIX, 0, &["1 unknown memory\n"]);

const HOLDS_BY_TWO: Run = (
    &["--workers=2", "script"],
    WITHIN_PREFIX,
    0,
    &["1 unknown memory\n"],
);

const NAMES: Run = (
    &["--unfold", "script"],
    (
        "channel a, b\nP = a -> Q\nQ = b -> P\nassert P [T= P ||| STOP",
        "1 holds\n",
    ),
    0,
    &["1 unknown memory\n"],
);

const BUFFERS: Run = (
    &["script"],
    CHAIN,
    1,
    &[
        "1 unknown memory\n2 fails trace <in.0> event in.0\n",
        "1 holds\n2 unknown memory\n",
    ],
);

// How a run ends where one request for memory is refused.
enum Ending {
    Answered,
    WithoutAnswer,
    Refused,
    Unasked,
    Other,
}

fn ending_of(told: &Told, run: &Run, asked: bool) -> Ending {
    let (_, (_, report), status, without) = *run;
    if told.is(status, report, "") {
        return if asked {
            Ending::Answered
        } else {
            Ending::Unasked
        };
    }
    if told.is_refused("refused memory\n") {
        return Ending::Refused;
    }
    for report in without {
        if told.is(2, report, "") {
            return Ending::WithoutAnswer;
        }
    }
    Ending::Other
}

// How the run ends where the request of that number is refused.
fn ending_without<R: Threads + Wait + Sync>(
    alloc: Global,
    rt: &R,
    request: u64,
    run: &Run,
) -> Ending {
    let (words, (text, _), _, _) = *run;
    let memory = RefusesOnce::new(alloc, request);
    let mut files = OneText {
        name: "script",
        text: text.as_bytes(),
        alloc: &memory,
    };
    let told = run_in(alloc, &memory, rt, words, &mut files);
    ending_of(&told, run, memory.has_refused())
}

// Each request from that number on, in such steps, is refused in turn, until one is not made.
fn is_answered_or_refused<R: Abort + Threads + Wait + Sync>(
    rt: &R,
    alloc: Global,
    run: &Run,
    first: u64,
    step: u64,
) {
    let (mut refused, mut without_answer) = (0u32, 0u32);
    let mut request = first;
    for _ in 0..100_000 {
        match ending_without(alloc, rt, request, run) {
            Ending::Answered => {}
            Ending::WithoutAnswer => without_answer = without_answer.saturating_add(1),
            Ending::Refused => refused = refused.saturating_add(1),
            Ending::Unasked => {
                let each = refused > 4 && without_answer > 4;
                assert!(rt; each, "{refused} and {without_answer} before {request}");
                return;
            }
            Ending::Other => assert!(rt; false, "without {request}"),
        }
        request = request.saturating_add(step);
    }
    assert!(rt; false, "no end");
}

#[test]
fn refused_memory_changes_no_other_answer(rt: HostRuntime) -> Result<(), Fail> {
    for run in &[FAILS, HOLDS, FAILS_BY_TWO, HOLDS_BY_TWO, NAMES] {
        is_answered_or_refused(&rt, rt.alloc(), run, 0, 1);
    }
    Ok(())
}

// The numbers of the requests are divided among four tests, by what is left of them after a division by four.
#[test]
fn buffers_without_a_request_of_the_first_quarter(rt: HostRuntime) -> Result<(), Fail> {
    is_answered_or_refused(&rt, rt.alloc(), &BUFFERS, 0, 4);
    Ok(())
}

#[test]
fn buffers_without_a_request_of_the_second_quarter(rt: HostRuntime) -> Result<(), Fail> {
    is_answered_or_refused(&rt, rt.alloc(), &BUFFERS, 1, 4);
    Ok(())
}

#[test]
fn buffers_without_a_request_of_the_third_quarter(rt: HostRuntime) -> Result<(), Fail> {
    is_answered_or_refused(&rt, rt.alloc(), &BUFFERS, 2, 4);
    Ok(())
}

#[test]
fn buffers_without_a_request_of_the_fourth_quarter(rt: HostRuntime) -> Result<(), Fail> {
    is_answered_or_refused(&rt, rt.alloc(), &BUFFERS, 3, 4);
    Ok(())
}
