//! Long texts, which are put together of pieces.

use crate::answers::answer;
use std::alloc::{AllocError, Global};
use std::process::Abort;
use std::test::Fail;

/// A part of a text, and how often it stands. In it `$` is replaced by its number, from 0, and `~` by the next number.
type Piece = (&'static str, u32);

/// The pieces of a text, and its answer.
type Long = (&'static [Piece], &'static str);

/// What stands before a text that is repeated, how often, and what stands behind it.
type Level = (&'static str, u32, &'static str);

/// A text, what is put round it, from inside, and the answer.
type Nested = (&'static str, &'static [Level], &'static str);

/// Kinds that go along calls: from below, from above and round, and that grow with each.
static CALLS: [Long; 11] = [
    (
        &[
            ("P$(n) = P~(n)\n", 2000),
            ("P2000(n) = n & STOP\nassert P0(true) [T= STOP", 1),
        ],
        "fine",
    ),
    (
        &[
            ("P$(n) = P~(n)\n", 2000),
            ("P2000(n) = n & STOP\nassert P0(1) [T= STOP", 1),
        ],
        "K03 at 2002:1",
    ),
    (
        &[
            ("P0(n) = n & STOP\n", 1),
            ("P~(n) = P$(n)\n", 2000),
            ("assert P2000(true) [T= STOP", 1),
        ],
        "fine",
    ),
    (
        &[
            ("P0(n) = n & STOP\n", 1),
            ("P~(n) = P$(n)\n", 2000),
            ("assert P2000(1) [T= STOP", 1),
        ],
        "K03 at 2002:1",
    ),
    (
        &[("P$(n) = P~(n)\n", 2000), ("P2000(n) = P0(n)", 1)],
        "fine",
    ),
    (
        &[("P$(n) = P~(n)\n", 2000), ("P2000(n) = P0(<n>)", 1)],
        "K03 at 2001:1",
    ),
    (
        &[("P$(n) = P~(<n>)\n", 500), ("P500(n) = n == <> & STOP", 1)],
        "fine",
    ),
    (
        &[("P$(n) = P~(<n>)\n", 500), ("P500(n) = P0(n)", 1)],
        "K03 at 501:1",
    ),
    (
        &[("P~(n) = P$(<n>)\n", 500), ("P0(n) = n & STOP", 1)],
        "K03 at 501:1",
    ),
    (
        &[
            ("P$(n) = P~(<n>)\n", 300),
            ("P300(n) = STOP\nassert P0(0) [T= P40(", 1),
            ("<", 40),
            (">", 40),
            (")", 1),
        ],
        "fine",
    ),
    (
        &[
            ("P$(n) = P~(<n>)\n", 300),
            ("P300(n) = STOP\nassert P0(0) [T= P40(", 1),
            ("<", 41),
            (">", 41),
            (")", 1),
        ],
        "K03 at 302:1",
    ),
];

/// Many items, members and operators, of which the kinds of some are not known yet.
static ITEMS: [Long; 7] = [
    (
        &[("P = <", 1), ("0,", 20_000), ("0> == <> & STOP", 1)],
        "fine",
    ),
    (
        &[("P = <", 1), ("0,", 20_000), ("true> == <> & STOP", 1)],
        "K03 at 1:1",
    ),
    (
        &[
            ("Q = STOP", 1),
            (" ; (<> == <> & STOP)", 40),
            ("\n", 1),
            ("P$ = head(<>) == head(<>) & STOP\n", 300),
        ],
        "fine",
    ),
    (&[("channel c : {", 1), ("$,", 1023), ("1023}", 1)], "fine"),
    (
        &[("channel c : {", 1), ("$,", 1024), ("1024}", 1)],
        "K05 at 1:13",
    ),
    (&[("channel c : {", 1), ("$,", 1024), ("0}", 1)], "fine"),
    (
        &[("channel c : {", 1), ("0,", 20_000), ("true}", 1)],
        "K03 at 1:13",
    ),
];

/// Sets of many members, and channels of many events.
static SETS: [Long; 13] = [
    (&[("channel c : {", 1), ("0,", 20_000), ("0}", 1)], "fine"),
    (
        &[("nametype N = {<", 1), ("$,", 1023), ("1023>}", 1)],
        "fine",
    ),
    (
        &[("nametype N = {<", 1), ("$,", 1024), ("1024>}", 1)],
        "K05 at 1:14",
    ),
    (
        &[
            ("datatype D = A", 1),
            (" | A$", 1023),
            ("\nchannel c : D.{0..3}", 1),
        ],
        "fine",
    ),
    (
        &[
            ("datatype D = A", 1),
            (" | A$", 1024),
            ("\nchannel c : D", 1),
        ],
        "K05 at 2:13",
    ),
    (&[("datatype D = A", 1), (" | A$", 5000)], "fine"),
    (&[("channel c$\n", 4096)], "fine"),
    (&[("channel c$\n", 4097)], "K06 at 4097:9"),
    (&[("channel c$\n", 4095), ("channel d : {0}", 1)], "fine"),
    (
        &[("channel c$\n", 4095), ("channel d : {0..1}", 1)],
        "K06 at 4096:9",
    ),
    (
        &[("nametype N = {0}\nchannel c : N", 1), (".N", 1000)],
        "fine",
    ),
    (&[("channel c : Bool", 1), (".Bool", 1000)], "K06 at 1:9"),
    (
        &[
            ("nametype N0 = {0}\n", 1),
            ("nametype N~ = union(N$,{~})\n", 200),
        ],
        "fine",
    ),
];

/// Many names.
static NAMES: [Long; 7] = [
    (&[("P$ = STOP\n", 4500)], "fine"),
    (&[("P$ = STOP\n", 4500), ("P7 = STOP", 1)], "K02 at 4501:1"),
    (&[("P(", 1), ("x$,", 8000), ("y) = STOP", 1)], "fine"),
    (
        &[("P(", 1), ("x$,", 8000), ("x0) = STOP", 1)],
        "K02 at 1:46893",
    ),
    (
        &[("P$(n) = P~(n)\n", 3000), ("P3000 = STOP", 1)],
        "K04 at 3000:12",
    ),
    (
        &[("P$(n) = P~(n)\n", 3000), ("P3000(x) = y & STOP", 1)],
        "K01 at 3001:12",
    ),
    (
        &[("channel c\nP = (STOP \\ {", 1), ("c,", 25_000), ("d})", 1)],
        "K01 at 2:50014",
    ),
];

/// 1,680 and more empty sequences in sets of sets of sets.
static NESTED: [Nested; 3] = [
    (
        "<>,",
        &[
            ("{", 15, "<>},"),
            ("{", 15, "{}},"),
            ("P = {", 7, "{}} == {} & STOP"),
        ],
        "fine",
    ),
    (
        "<>,",
        &[
            ("{", 15, "<>},"),
            ("{", 15, "{}},"),
            ("P = {", 7, "{{<0>}}} == {} & STOP"),
        ],
        "fine",
    ),
    (
        "<>,",
        &[
            ("{", 15, "<>},"),
            ("{", 15, "{}},"),
            ("P = {{{<0>}},", 6, "{{<true>}}} == {} & STOP"),
        ],
        "K03 at 1:1",
    ),
];

/// Adds a part of a text with its number.
fn push_part(alloc: Global, part: &str, number: u32, text: &mut String) -> Result<(), AllocError> {
    let next = number.saturating_add(1);
    for letter in part.chars() {
        match letter {
            '$' => text.push_str(&format!(in alloc; "{number}")?)?,
            '~' => text.push_str(&format!(in alloc; "{next}")?)?,
            _ => text.push(letter)?,
        }
    }
    Ok(())
}

fn push_piece(alloc: Global, piece: &Piece, text: &mut String) -> Result<(), AllocError> {
    for number in 0..piece.1 {
        push_part(alloc, piece.0, number, text)?;
    }
    Ok(())
}

fn put_together(alloc: Global, pieces: &[Piece]) -> Result<String, AllocError> {
    let mut text = String::new(alloc);
    for piece in pieces {
        push_piece(alloc, piece, &mut text)?;
    }
    Ok(text)
}

/// The text as often as the level says, between what stands before and behind.
fn wrapped(alloc: Global, text: &str, level: &Level) -> Result<String, AllocError> {
    let mut whole = String::from_str(alloc, level.0)?;
    for _ in 0..level.1 {
        whole.push_str(text)?;
    }
    whole.push_str(level.2)?;
    Ok(whole)
}

fn nested(alloc: Global, inside: &str, levels: &[Level]) -> Result<String, AllocError> {
    let mut text = String::from_str(alloc, inside)?;
    for level in levels {
        text = wrapped(alloc, &text, level)?;
    }
    Ok(text)
}

fn are_answered_so(rt: &impl Abort, alloc: Global, texts: &[Long]) -> Result<(), Fail> {
    for (pieces, expected) in texts {
        let text = put_together(alloc, pieces)?;
        let answer = answer(alloc, &text)?;
        assert!(rt;
            answer.as_str() == *expected,
            "{pieces:?}: {answer} and not {expected}"
        );
    }
    Ok(())
}

#[test]
fn long_texts_are_answered_so(rt: HostRuntime) -> Result<(), Fail> {
    for texts in [&CALLS[..], &ITEMS[..], &SETS[..], &NAMES[..]] {
        are_answered_so(&rt, rt.alloc(), texts)?;
    }
    for (inside, levels, expected) in &NESTED {
        let text = nested(rt.alloc(), inside, levels)?;
        let answer = answer(rt.alloc(), &text)?;
        assert!(rt;
            answer.as_str() == *expected,
            "{levels:?}: {answer} and not {expected}"
        );
    }
    Ok(())
}
