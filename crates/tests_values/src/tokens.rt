//! Tables of texts with their tokens, and with their refusals. They are read with ample memory, and then with each
//! request for memory refused in turn.

use csp_lex::{Token, TokenKind, TokenList, tokens};
use linked_list_allocator::LocalHeap;
use refusing_memory::RefusesOnce;
use std::alloc::{AllocError, Allocator, Global};
use std::fmt::Write;
use std::process::Abort;
use std::test::Fail;

/// Writes a letter for the kind, and the token's text: `k` a keyword, `s` a sign, `n` a name, or the value of a number.
fn write_token(shown: &mut String, kind: TokenKind, text: &str) -> Result<(), AllocError> {
    match kind {
        TokenKind::Keyword(keyword) => write!(shown, "k{keyword} "),
        TokenKind::Sign(sign) => write!(shown, "s{sign} "),
        TokenKind::Name => write!(shown, "n{text} "),
        TokenKind::Number(value) => write!(shown, "{value} "),
    }
}

fn listed<A: Allocator>(alloc: Global, list: &TokenList<'_, A>) -> Result<String, AllocError> {
    let mut shown = String::new(alloc);
    for token in &list.tokens {
        write_token(&mut shown, token.kind, token.text)?;
    }
    Ok(shown)
}

/// The tokens of a text, which are listed in the memory, or its refusal.
fn read<A: Allocator>(alloc: Global, memory: A, bytes: &[u8]) -> Result<String, AllocError> {
    match tokens(memory, bytes) {
        Ok(list) => listed(alloc, &list),
        Err(refused) => format!(in alloc; "{refused}"),
    }
}

/// Writes the token with its place and its bytes.
fn write_place(shown: &mut String, token: Token<'_>) -> Result<(), AllocError> {
    let (text, place, from, to) = (token.text, token.place, token.from, token.to);
    write!(shown, "{text} at {place} {from}..{to}; ")
}

/// Each token with its place, and the place behind the text.
fn places(alloc: Global, list: &TokenList<'_, Global>) -> Result<String, AllocError> {
    let mut shown = String::new(alloc);
    for token in &list.tokens {
        write_place(&mut shown, *token)?;
    }
    let end = list.end;
    write!(shown, "end {end}")?;
    Ok(shown)
}

/// The places of a text's tokens, or its refusal.
fn placed(alloc: Global, bytes: &[u8]) -> Result<String, AllocError> {
    match tokens(alloc, bytes) {
        Ok(list) => places(alloc, &list),
        Err(refused) => format!(in alloc; "{refused}"),
    }
}

/// Whether the text has these tokens, or this refusal.
fn reads(alloc: Global, bytes: &[u8], expected: &str) -> Result<bool, AllocError> {
    Ok(read(alloc, alloc, bytes)?.as_str() == expected)
}

/// Whether the tokens of the text have these places, or the text has this refusal.
fn is_placed(alloc: Global, bytes: &[u8], expected: &str) -> Result<bool, AllocError> {
    Ok(placed(alloc, bytes)?.as_str() == expected)
}

/// Texts with their tokens.
const TOKENS: &[(&str, &str)] = &[
    ("", ""),
    ("{ -1}", "s{ s- 1 s} "),
    ("x--1", "nx "),
    ("x - -1", "nx s- s- 1 "),
    ("<-", "s<- "),
    ("< -1>", "s< s- 1 s> "),
    ("<x>==s", "s< nx s>= s= ns "),
    ("<x> == s", "s< nx s> s== ns "),
    ("[||] ||| || |~|", "s[| s|] s||| s|| s|~| "),
    ("[[ ]] |]] [] {| |}", "s[[ s]] s|] s] s[] s{| s|} "),
    ("[T= [F= [ T= [>", "s[T= s[F= s[ nT s= s[> "),
    ("[>= [ > P[>Q", "s[> s= s[ s> nP s[> nQ "),
    (
        "B.{0..1} :[deadlock free]",
        "nB s. s{ 0 s.. 1 s} s: s[ ndeadlock nfree s] ",
    ),
    (".. ... 1..2", "s.. s.. s. 1 s.. 2 "),
    (
        "-> /\\ \\ ; & @ != <= >= + * % ^ # ! ? : , ( )",
        "s-> s/\\ s\\ s; s& s@ s!= s<= s>= s+ s* s% s^ s# s! s? s: s, s( s) ",
    ),
    ("a'' if' if or'", "na'' nif' kif nor' "),
    ("STOP SKIP Bool stop", "kSTOP kSKIP kBool nstop "),
    (
        "datatype nametype channel assert then else and or not true false",
        "kdatatype knametype kchannel kassert kthen kelse kand kor knot ktrue kfalse ",
    ),
    (
        "head tail null elem member union inter diff card",
        "khead ktail knull kelem kmember kunion kinter kdiff kcard ",
    ),
    ("αβ a_1 x1", "nαβ na_1 nx1 "),
    ("2147483647 00 12ab", "2147483647 0 12 nab "),
    ("{- {- -} a", "na "),
    ("{- {- -} -}", "s- s} "),
    ("{-} a -} b", "nb "),
    ("a --", "na "),
    ("a -- b\nc", "na nc "),
    (
        "P = c?x -> c!x -> P assert P [T= P assert P [F= STOP",
        "nP s= nc s? nx s-> nc s! nx s-> nP kassert nP s[T= nP kassert nP s[F= kSTOP ",
    ),
];

fn have_tokens(rt: &impl Abort, alloc: Global) -> Result<(), Fail> {
    for (text, expected) in TOKENS {
        assert!(rt; reads(alloc, text.as_bytes(), *expected)?, "{text}");
    }
    Ok(())
}

/// Texts with their refusals.
const REFUSALS: &[(&[u8], &str)] = &[
    (b"{-1}", "L02 at 1:1"),
    (b"{- x", "L02 at 1:1"),
    (b"{- a -} {- b", "L02 at 1:9"),
    (b"P = STOP $", "L01 at 1:10"),
    (b"_x", "L01 at 1:1"),
    (b"~", "L01 at 1:1"),
    (b"a\n  ~", "L01 at 2:3"),
    (b"\xcc\x81a", "L01 at 1:1"),
    (b"\xef\xbb\xbfP", "L01 at 1:1"),
    (b"2147483648", "L03 at 1:1"),
    (b"assert STOP [T= P(2147483648)", "L03 at 1:19"),
    (b"2147483648 $", "L03 at 1:1"),
    (b"$ 2147483648 {-", "L01 at 1:1"),
    (b"\xce\xb1$", "L01 at 1:2"),
    (b"\xe0\xb2\x95$", "L01 at 1:2"),
    (b"\xf0\x9d\x90\xb1$", "L01 at 1:2"),
    (b"{-\xe2\x82\xac-}$", "L01 at 1:6"),
    (b"P\xff", "L04 at 1:2"),
    (b"P\xce", "L04 at 1:2"),
    (b"\xce\xb1\xff", "L04 at 1:2"),
    (b"\xc0\xaf", "L04 at 1:1"),
    (b"\xed\xa0\x80", "L04 at 1:1"),
    (b"$\n$\xff", "L04 at 2:2"),
    (b"\xff", "L04 at 1:1"),
];

fn have_refusals(rt: &impl Abort, alloc: Global) -> Result<(), Fail> {
    for (bytes, expected) in REFUSALS {
        assert!(rt; reads(alloc, *bytes, *expected)?, "{bytes:?}");
    }
    Ok(())
}

/// Texts with the places of their tokens.
const PLACES: &[(&str, &str)] = &[
    ("", "end 1:1"),
    (
        "a\rb\tc\nd\r\ne",
        "a at 1:1 0..1; b at 1:3 2..3; c at 1:5 4..5; d at 2:1 6..7; e at 3:1 9..10; end 3:2",
    ),
    (
        "α -> STOP\n",
        "α at 1:1 0..2; -> at 1:3 3..5; STOP at 1:6 6..10; end 2:1",
    ),
    ("{-€\n-}x -- €", "x at 2:3 8..9; end 2:9"),
];

fn have_places(rt: &impl Abort, alloc: Global) -> Result<(), Fail> {
    for (text, expected) in PLACES {
        assert!(rt; is_placed(alloc, text.as_bytes(), *expected)?, "{text}");
    }
    Ok(())
}

/// A text of 65536 bytes is read, and a longer one is refused, whatever it ends with.
fn have_lengths(rt: &impl Abort, alloc: Global) -> Result<(), Fail> {
    let mut spaces = vec![in alloc; b' '; 65_536]?;
    assert!(rt; is_placed(alloc, &spaces, "end 1:65537")?);
    spaces.push(b' ')?;
    assert!(rt; is_placed(alloc, &spaces, "L05 at 1:1")?);
    spaces.push(0xff)?;
    assert!(rt; is_placed(alloc, &spaces, "L05 at 1:1")?);
    Ok(())
}

#[test]
fn texts_have_their_tokens_or_refusals(rt: HostRuntime) -> Result<(), Fail> {
    have_tokens(&rt, rt.alloc())?;
    have_refusals(&rt, rt.alloc())?;
    have_places(&rt, rt.alloc())?;
    have_lengths(&rt, rt.alloc())
}

/// Whether the text is read with each request granted. Where one is refused, that is told, or the tokens are those that
/// are expected. Then nothing is held, and the text is as it was.
fn is_granted(
    rt: &impl Abort,
    alloc: Global,
    bytes: &[u8],
    expected: &str,
    request: u64,
) -> Result<bool, Fail> {
    let heap = LocalHeap::new(alloc, 16_384)?;
    let memory = RefusesOnce::new(&heap, request);
    let text = Vec::from_slice(alloc, bytes)?;
    let answer = read(alloc, &memory, &text)?;
    let is_refused = memory.has_refused() && answer.as_str() == "out of memory";
    assert!(rt;
        is_refused || answer.as_str() == expected,
        "request {request}: {answer}"
    );
    assert!(rt;
        heap.used() == 0 && text.as_slice() == bytes,
        "request {request}"
    );
    Ok(!memory.has_refused())
}

/// How many requests the reading of a text makes, of which each was refused in turn.
fn requests_of(rt: &impl Abort, alloc: Global, bytes: &[u8], expected: &str) -> Result<u64, Fail> {
    for request in 0..64 {
        if is_granted(rt, alloc, bytes, expected, request)? {
            return Ok(request);
        }
    }
    Err(Fail::new("requests without end"))
}

#[test]
fn refused_memory_is_told(rt: HostRuntime) -> Result<(), Fail> {
    let mut most = 0;
    for (text, expected) in TOKENS {
        let requests = requests_of(&rt, rt.alloc(), text.as_bytes(), *expected)?;
        most = most.max(requests);
    }
    for (bytes, expected) in REFUSALS {
        requests_of(&rt, rt.alloc(), *bytes, *expected)?;
    }
    assert!(rt; most > 2, "{most}");
    Ok(())
}
