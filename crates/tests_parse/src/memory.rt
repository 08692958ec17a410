//! Trees that are made with each request for memory refused in turn: at the first of them, then at the second, until
//! none is refused. That is told, or the tree is the one with ample memory. Then nothing is held, and the tokens are as
//! they were.

use crate::show_script;
use crate::worked::WORKED;
use csp_lex::{Token, TokenList, tokens};
use csp_parse::parse;
use linked_list_allocator::LocalHeap;
use refusing_memory::RefusesOnce;
use std::alloc::{AllocError, Allocator, Global};
use std::process::Abort;
use std::test::Fail;

/// Texts with a tree, and texts that are refused.
static TEXTS: [&str; 4] = [
    WORKED,
    "P = STOP",
    "channel a, b, c\nassert STOP [T= a -> STOP \\ {a}",
    "channel c : {0..1} P = c?x -> c!x -> (P [] Q",
];

/// More requests than any of these trees takes.
const MANY: u64 = 100_000;

/// The tree of the tokens, which is made in the memory, or its refusal.
fn read_in<A: Allocator + Copy>(
    alloc: Global,
    memory: A,
    list: &TokenList<'_, Global>,
) -> Result<String, AllocError> {
    match parse(memory, list) {
        Ok(raw) => show_script::script(alloc, &raw),
        Err(refused) => format!(in alloc; "{refused}"),
    }
}

/// Whether the two are one token.
fn is_same(token: Token<'_>, other: Token<'_>) -> bool {
    token.kind == other.kind
        && token.text == other.text
        && token.place == other.place
        && token.from == other.from
        && token.to == other.to
}

/// Whether the lists have the same tokens.
fn are_same(list: &TokenList<'_, Global>, other: &TokenList<'_, Global>) -> bool {
    for (token, before) in list.tokens.iter().zip(&other.tokens) {
        if !is_same(*token, *before) {
            return false;
        }
    }
    list.tokens.len() == other.tokens.len() && list.end == other.end
}

/// Whether the tree was granted all that it asked for.
fn is_granted(
    rt: &impl Abort,
    alloc: Global,
    list: &TokenList<'_, Global>,
    expected: &str,
    request: u64,
) -> Result<bool, Fail> {
    let heap = LocalHeap::new(alloc, 131_072)?;
    let memory = RefusesOnce::new(&heap, request);
    let answer = read_in(alloc, &memory, list)?;
    let is_refused = memory.has_refused() && answer.as_str() == "out of memory";
    let held = heap.used();
    assert!(rt;
        is_refused || answer.as_str() == expected,
        "request {request}: {answer}"
    );
    assert!(rt; held == 0, "request {request}: {held} bytes are held");
    Ok(!memory.has_refused())
}

/// How many requests the tree of the text makes, of which each was refused in turn.
fn requests_of(rt: &impl Abort, alloc: Global, text: &str) -> Result<u64, Fail> {
    let list = tokens(alloc, text.as_bytes())?;
    let before = tokens(alloc, text.as_bytes())?;
    let expected = read_in(alloc, alloc, &list)?;
    for request in 0..MANY {
        let is_granted = is_granted(rt, alloc, &list, &expected, request)?;
        assert!(rt; are_same(&list, &before), "request {request}: other tokens");
        if is_granted {
            return Ok(request);
        }
    }
    Err(Fail::new("requests without end"))
}

#[test]
fn refused_memory_is_told(rt: HostRuntime) -> Result<(), Fail> {
    for text in &TEXTS {
        let requests = requests_of(&rt, rt.alloc(), *text)?;
        assert!(rt; requests > 0, "{text}: {requests}");
    }
    Ok(())
}
