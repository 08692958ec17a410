//! Checks whose requests for memory are refused in turn: at the first of them, then at the second, until none is
//! refused.

use crate::samples::{BUFFERS, PAINTING, SMALL};
use csp_kinds::{Refused, check};
use csp_lex::{TokenList, tokens};
use csp_parse::{Raw, parse};
use csp_term::Script;
use csp_term::laws::equal_scripts;
use linked_list_allocator::LocalHeap;
use refusing_memory::RefusesOnce;
use std::alloc::Global;
use std::process::Abort;
use std::test::Fail;

/// A heap that refuses one request.
type Memory<'m, 'h> = &'m RefusesOnce<&'h LocalHeap>;

/// A text in two parts, and the answer.
type Row = (&'static str, &'static str, &'static str);

static ROWS: [Row; 7] = [
    (SMALL, "", "fine"),
    (SMALL, "assert P(0) [T= STOP", "K03 at 5:1"),
    (BUFFERS, "", "fine"),
    (PAINTING, "", "fine"),
    (
        PAINTING,
        "assert PAINT(0,{}) [T= STOP\nchannel paint",
        "K02 at 15:9",
    ),
    (PAINTING, "assert PAINT(0) [T= STOP", "K04 at 14:8"),
    (PAINTING, "assert PAINT({},0) [T= STOP", "K03 at 14:1"),
];

/// More requests than any of these checks makes.
const MANY: u64 = 100_000;

/// The tree of the text, in the heap.
fn tree<'t, 'm, 'h>(
    memory: Memory<'m, 'h>,
    list: &TokenList<'t, Global>,
) -> Result<Raw<'t, Memory<'m, 'h>>, Fail> {
    match parse(memory, list) {
        Ok(raw) => Ok(raw),
        Err(refused) => Err(Fail::new(format_args!("{refused}"))),
    }
}

/// Whether the refusal is the one that is expected.
fn is_told(alloc: Global, refused: Refused, expected: &str) -> Result<bool, Fail> {
    let told = format!(in alloc; "{refused}")?;
    Ok(told.as_str() == expected)
}

/// Whether the answer is the one that is expected, with an equal script where there is one.
fn is_so<'m, 'h>(
    alloc: Global,
    answer: &Result<Script<Memory<'m, 'h>>, Refused>,
    whole: &Result<Script<Memory<'m, 'h>>, Refused>,
    expected: &str,
) -> Result<bool, Fail> {
    match (answer, whole) {
        (Ok(script), Ok(other)) => Ok(expected == "fine" && equal_scripts(script, other)),
        (Err(refused), Err(_)) => is_told(alloc, *refused, expected),
        _ => Ok(false),
    }
}

/// Two heaps, one for what is given and one for the check.
#[derive(Drop)]
struct Heaps {
    wide: LocalHeap,
    narrow: LocalHeap,
}

/// The wide heap, which grants all requests, and the narrow one, which refuses one.
#[derive(Drop)]
struct Memories<'h> {
    ample: RefusesOnce<&'h LocalHeap>,
    sparse: RefusesOnce<&'h LocalHeap>,
}

/// Whether the check was granted all that it asked for. It says that memory was refused, and then the narrow heap is
/// empty again, or it is answered as with ample memory.
fn is_checked<'m, 'h>(
    rt: &impl Abort,
    alloc: Global,
    heaps: &'h Heaps,
    memories: &'m Memories<'h>,
    raw: &Raw<'_, Memory<'m, 'h>>,
    whole: &Result<Script<Memory<'m, 'h>>, Refused>,
    expected: &str,
) -> Result<bool, Fail> {
    let answer = check(&memories.sparse, raw);
    let has_refused = memories.sparse.has_refused();
    if has_refused && let Err(Refused::Memory) = answer {
        let held = heaps.narrow.used();
        assert!(rt; held == 0, "{expected}: {held} bytes are held");
        return Ok(false);
    }
    let is_so = is_so(alloc, &answer, whole, expected)?;
    assert!(rt; is_so, "another answer than {expected}");
    Ok(!has_refused)
}

/// Checks the tokens' tree with ample memory, and then with the other one.
fn is_checked_with<'m, 'h>(
    rt: &impl Abort,
    alloc: Global,
    heaps: &'h Heaps,
    memories: &'m Memories<'h>,
    list: &TokenList<'_, Global>,
    expected: &str,
) -> Result<bool, Fail> {
    let raw = tree(&memories.ample, list)?;
    let whole = check(&memories.ample, &raw);
    is_checked(rt, alloc, heaps, memories, &raw, &whole, expected)
}

/// Checks the tokens' tree where that request is refused.
fn is_checked_in<'h>(
    rt: &impl Abort,
    alloc: Global,
    heaps: &'h Heaps,
    list: &TokenList<'_, Global>,
    expected: &str,
    request: u64,
) -> Result<bool, Fail> {
    let memories = Memories {
        ample: RefusesOnce::new(&heaps.wide, u64::MAX),
        sparse: RefusesOnce::new(&heaps.narrow, request),
    };
    is_checked_with(rt, alloc, heaps, &memories, list, expected)
}

/// How many requests a check makes, of which each was refused in turn.
fn requests_of(
    rt: &impl Abort,
    alloc: Global,
    list: &TokenList<'_, Global>,
    expected: &str,
) -> Result<u64, Fail> {
    for request in 0..MANY {
        let heaps = Heaps {
            wide: LocalHeap::new(alloc, 131_072)?,
            narrow: LocalHeap::new(alloc, 131_072)?,
        };
        if is_checked_in(rt, alloc, &heaps, list, expected, request)? {
            return Ok(request);
        }
    }
    Err(Fail::new("requests without end"))
}

#[test]
fn a_check_that_is_refused_memory_says_so(rt: HostRuntime) -> Result<(), Fail> {
    for (start, end, expected) in &ROWS {
        let text = format!(in rt.alloc(); "{start}{end}")?;
        let list = tokens(rt.alloc(), text.as_bytes())?;
        let requests = requests_of(&rt, rt.alloc(), &list, expected)?;
        assert!(rt; requests > 5, "{end}: {requests}");
    }
    Ok(())
}
