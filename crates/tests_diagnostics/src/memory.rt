//! Messages, and the list of refusals, whose requests for memory are refused in turn: at the first of them, then at the
//! second, until none is refused. That is told, or they are as with ample memory.

use crate::messages::refusal_of;
use diagnostics::{Refusal, message, refusal_list};
use refusing_memory::RefusesOnce;
use std::alloc::{AllocError, Global};
use std::process::Abort;
use std::test::Fail;

/// Memory that refuses one request.
type OneRefused<'m> = &'m RefusesOnce<Global>;

/// Texts with refusals of each sort, and with each sort of note.
static TEXTS: [&str; 8] = [
    "P = STOP $",
    "P = (a -> STOP\nQ = STOP",
    "P = a -> STOP \\ {a}",
    "P = (STOP",
    "COPY = STOP\nassert COPPY [T= STOP",
    "channel c : N\nnametype N = {0}",
    "channel a, a",
    "P(n,m) = STOP\nassert P [T= STOP",
];

/// More requests than any of these messages makes.
const MANY: u64 = 1000;

/// Whether nothing was refused. Else that is told; and what is written is what was expected.
fn is_granted(
    rt: &impl Abort,
    memory: OneRefused<'_>,
    written: Result<String<OneRefused<'_>>, AllocError>,
    expected: &str,
) -> bool {
    let has_refused = memory.has_refused();
    match written {
        Ok(text) => assert!(rt; text.as_str() == expected, "{text}and not\n{expected}"),
        Err(_) => assert!(rt; has_refused, "nothing was refused"),
    }
    !has_refused
}

/// How many requests the message on the text takes, of which each was refused in turn.
fn requests_of_message(
    rt: &impl Abort,
    alloc: Global,
    text: &str,
    refusal: Refusal,
) -> Result<u64, Fail> {
    let whole = message(alloc, "script.csp", text.as_bytes(), refusal)?;
    for request in 0..MANY {
        let memory = RefusesOnce::new(alloc, request);
        let written = message(&memory, "script.csp", text.as_bytes(), refusal);
        if is_granted(rt, &memory, written, &whole) {
            return Ok(request);
        }
    }
    Err(Fail::new("requests without end"))
}

/// How many requests the list of refusals takes, of which each was refused in turn.
fn requests_of_list(rt: &impl Abort, alloc: Global) -> Result<u64, Fail> {
    let whole = refusal_list(alloc)?;
    for request in 0..MANY {
        let memory = RefusesOnce::new(alloc, request);
        let written = refusal_list(&memory);
        if is_granted(rt, &memory, written, &whole) {
            return Ok(request);
        }
    }
    Err(Fail::new("requests without end"))
}

#[test]
fn a_message_that_is_refused_memory_says_so(rt: HostRuntime) -> Result<(), Fail> {
    for text in &TEXTS {
        let refusal = refusal_of(rt.alloc(), text.as_bytes())?.ok_or("a refusal")?;
        let requests = requests_of_message(&rt, rt.alloc(), text, refusal)?;
        assert!(rt; requests > 5, "{requests}");
    }
    Ok(())
}

#[test]
fn a_list_that_is_refused_memory_says_so(rt: HostRuntime) -> Result<(), Fail> {
    let requests = requests_of_list(&rt, rt.alloc())?;
    assert!(rt; requests > 5, "{requests}");
    Ok(())
}
