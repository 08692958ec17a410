//! Texts that nest deep: in the values of nametypes that stand on one another, in declarations of the greatest height,
//! and in the terms that a search reaches. What is expected comes from the rules of the language and of the lines.

use crate::pieces::{Pieces, put_together, repeat};
use crate::runs::run_on_stack;
use program::{Stack, on_large_stack};
use std::alloc::{AllocError, Global};
use std::sync::Wait;
use std::test::Fail;
use std::thread::Threads;

// Nametypes that stand on one another: how many, and what each puts round the value of the one below it. The outer layer
// is a set, and in it are so many of these signs.
#[derive(Clone, Copy)]
struct Layers {
    nametypes: usize,
    open: &'static str,
    close: &'static str,
    inner: usize,
}

// Each declaration is as high as it may be, and the text as long.
const DEEPEST: Layers = Layers {
    nametypes: 300,
    open: "{",
    close: "}",
    inner: 98,
};

// In a text of 4,096 bytes.
const SHORT: Layers = Layers {
    nametypes: 17,
    open: "{",
    close: "}",
    inner: 98,
};

// Fewer, since the time goes with their square.
const SETS: Layers = Layers {
    nametypes: 150,
    open: "{",
    close: "}",
    inner: 98,
};

// Of a sequence both signs count for the height.
const SEQUENCES: Layers = Layers {
    nametypes: 250,
    open: "<",
    close: ">",
    inner: 49,
};

// What stands behind the nametypes, the status, and the lines. The member of `LAST` is the deep value.
static BEHIND: [(&str, u8, &str); 8] = [
    ("", 0, ""),
    ("nametype TWICE = {LAST, LAST}", 0, ""),
    (
        "channel c : LAST\nR = c?x -> R\nassert R [F= R",
        0,
        "1 holds\n",
    ),
    (
        "channel c : LAST\nR = c?x -> R\nassert R [T= R [| {| c |} |] R",
        0,
        "1 holds\n",
    ),
    (
        "channel c : LAST\nR = c?x -> R\nassert R \\ {| c |} :[divergence free]",
        1,
        "1 fails trace <> diverges\n",
    ),
    (
        "channel a\nassert STOP [T= LAST == LAST & a -> STOP",
        1,
        "1 fails trace <> event a\n",
    ),
    (
        "channel a\nP(s) = a -> STOP\nassert STOP [T= P(LAST)",
        1,
        "1 fails trace <> event a\n",
    ),
    (
        "channel a\nP(s) = a -> P(s)\nassert STOP [T= P(LAST)",
        2,
        "1 unknown term\n",
    ),
];

// The value is put into an event that the specification lacks, by four states of a level of 128: one of each 32, as many
// as a worker draws at a time.
const SHOWING: &str =
    "channel c : LAST\nchannel i : {0..127}\nS(n) = n % 32 == 0 & c?x -> STOP\nassert STOP [T= (i?n -> S(n)) \\ {| i |}";

// How many workers show it, in turn.
const WORKERS: [&str; 3] = ["--workers=1", "--workers=2", "--workers=4"];

// A status, a text and its lines.
static HIGH: [(u8, Pieces, Pieces); 13] = [
    (
        0,
        &[
            ("P = ", 1),
            ("if true then ", 33),
            ("STOP", 1),
            (" else STOP", 33),
        ],
        &[],
    ),
    (
        1,
        &[
            ("channel a\nassert STOP [T= ", 1),
            ("not ", 98),
            ("true & a -> STOP", 1),
        ],
        &[("1 fails trace <> event a\n", 1)],
    ),
    (
        1,
        &[
            ("nametype E = {}\nnametype N = ", 1),
            ("union(", 99),
            ("{1}", 1),
            (", E)", 99),
            ("\nchannel c : N\nassert STOP [T= c?x -> STOP", 1),
        ],
        &[("1 fails trace <> event c.1\n", 1)],
    ),
    (
        0,
        &[
            ("channel a\nassert STOP [T= (a -> STOP) \\ ", 1),
            ("union(", 48),
            ("{a}", 1),
            (", {})", 48),
        ],
        &[("1 holds\n", 1)],
    ),
    (
        1,
        &[
            ("channel a\nassert STOP [T= a -> STOP", 1),
            (" [] STOP", 99),
        ],
        &[("1 fails trace <> event a\n", 1)],
    ),
    (
        1,
        &[
            ("nametype N = {0}\nchannel a\nassert STOP [T= ", 1),
            ("||| x:N @ ", 49),
            ("a -> STOP", 1),
        ],
        &[("1 fails trace <> event a\n", 1)],
    ),
    (
        1,
        &[
            ("nametype N = {0}\nchannel c : N", 1),
            (".N", 1989),
            ("\nassert STOP [T= c", 1),
            ("?x", 1990),
            (" -> STOP", 1),
        ],
        &[("1 fails trace <> event c", 1), (".0", 1990), ("\n", 1)],
    ),
    (
        2,
        &[
            ("nametype N = {0}\nchannel c : N", 1),
            (".N", 1999),
            ("\nassert STOP [T= c", 1),
            ("?x", 2000),
            (" -> STOP", 1),
        ],
        &[("1 unknown term\n", 1)],
    ),
    (
        2,
        &[(
            "channel a\nR = a -> R\nP = a -> (P ||| STOP)\nassert R [F= P",
            1,
        )],
        &[("1 unknown term\n", 1)],
    ),
    (
        2,
        &[(
            "channel a\nR = a -> R\nP = a -> (P ; STOP)\nassert R [F= P",
            1,
        )],
        &[("1 unknown term\n", 1)],
    ),
    (
        2,
        &[(
            "channel a\nR = a -> R\nP = a -> (P [[a <- a]])\nassert R [F= P",
            1,
        )],
        &[("1 unknown term\n", 1)],
    ),
    (
        2,
        &[(
            "channel a\nR = a -> R\nP = a -> (P \\ {})\nassert R [F= P",
            1,
        )],
        &[("1 unknown term\n", 1)],
    ),
    (
        2,
        &[(
            "channel a\nR = a -> R\nP = a -> (P /\\ STOP)\nassert R [F= P",
            1,
        )],
        &[("1 unknown term\n", 1)],
    ),
];

// Puts the layers of a nametype in front of what is written next, and behind it.
fn open_layers(text: &mut String, layers: Layers) -> Result<(), AllocError> {
    text.push_str("{")?;
    repeat(text, layers.open, layers.inner)
}

fn close_layers(text: &mut String, layers: Layers) -> Result<(), AllocError> {
    repeat(text, layers.close, layers.inner)?;
    text.push_str("}")
}

// The nametype of this number, whose layers are round the one below it.
fn add_nametype(
    alloc: Global,
    text: &mut String,
    layers: Layers,
    number: usize,
) -> Result<(), AllocError> {
    let head = format!(in alloc; "nametype N{number}=")?;
    let below = format!(in alloc; "N{}", number.saturating_sub(1))?;
    text.push_str(head.as_str())?;
    open_layers(text, layers)?;
    text.push_str(below.as_str())?;
    close_layers(text, layers)?;
    text.push_str("\n")
}

// The nametypes, one after the other, with what stands behind them.
fn nametypes(alloc: Global, layers: Layers, behind: &str) -> Result<String, AllocError> {
    let mut text = String::from_str(alloc, "nametype N0={0}\n")?;
    for number in 1..=layers.nametypes {
        add_nametype(alloc, &mut text, layers, number)?;
    }
    let last = format!(in alloc; "nametype LAST={{N{}}}\n", layers.nametypes)?;
    text.push_str(last.as_str())?;
    text.push_str(behind)?;
    Ok(text)
}

// The line that shows the member of `LAST` in an event.
fn line_with_value(alloc: Global, layers: Layers) -> Result<String, AllocError> {
    let mut line = String::from_str(alloc, "1 fails trace <> event c.")?;
    for _ in 0..layers.nametypes {
        open_layers(&mut line, layers)?;
    }
    line.push_str("{0}")?;
    for _ in 0..layers.nametypes {
        close_layers(&mut line, layers)?;
    }
    line.push_str("\n")?;
    Ok(line)
}

// Whether the text with the nametypes, and the row at the place behind them, is answered so.
fn is_nested_answered<R: Threads + Wait + Sync>(
    rt: &R,
    alloc: Global,
    stack: Stack,
    layers: Layers,
    place: usize,
) -> Result<bool, AllocError> {
    let Some((behind, status, lines)) = BEHIND.get(place) else {
        return Ok(false);
    };
    let text = nametypes(alloc, layers, behind)?;
    let told = run_on_stack(stack, alloc, rt, &["script"], text.as_bytes());
    Ok(told.is_answered(*status, lines))
}

// Whether the value is shown by so many workers.
fn is_shown<R: Threads + Wait + Sync>(
    rt: &R,
    alloc: Global,
    stack: Stack,
    layers: Layers,
    workers: &str,
) -> Result<bool, AllocError> {
    let text = nametypes(alloc, layers, SHOWING)?;
    let line = line_with_value(alloc, layers)?;
    let told = run_on_stack(stack, alloc, rt, &[workers, "script"], text.as_bytes());
    Ok(told.is_answered(1, line.as_str()))
}

// Whether the high text at the place is answered so.
fn is_high_answered<R: Threads + Wait + Sync>(
    rt: &R,
    alloc: Global,
    stack: Stack,
    place: usize,
) -> Result<bool, AllocError> {
    let Some((status, pieces, lines)) = HIGH.get(place) else {
        return Ok(false);
    };
    let text = put_together(alloc, pieces)?;
    let lines = put_together(alloc, lines)?;
    let told = run_on_stack(stack, alloc, rt, &["script"], text.as_bytes());
    Ok(told.is_answered(*status, lines.as_str()))
}

#[test]
fn texts_with_deep_sets_are_answered_so(rt: HostRuntime) -> Result<(), Fail> {
    for place in 0..BEHIND.len() {
        let is_so = on_large_stack(&rt, move |stack| {
            is_nested_answered(&rt, rt.alloc(), stack, SETS, place)
        })?;
        assert!(rt; is_so, "at {place}");
    }
    Ok(())
}

#[test]
fn texts_with_deep_sequences_are_answered_so(rt: HostRuntime) -> Result<(), Fail> {
    for place in 0..BEHIND.len() {
        let is_so = on_large_stack(&rt, move |stack| {
            is_nested_answered(&rt, rt.alloc(), stack, SEQUENCES, place)
        })?;
        assert!(rt; is_so, "at {place}");
    }
    Ok(())
}

#[test]
fn deep_sets_are_shown_by_one_worker(rt: HostRuntime) -> Result<(), Fail> {
    let is_so = on_large_stack(&rt, move |stack| {
        is_shown(&rt, rt.alloc(), stack, DEEPEST, "--workers=1")
    })?;
    assert!(rt; is_so);
    Ok(())
}

#[test]
fn deep_sets_are_shown_by_four_workers(rt: HostRuntime) -> Result<(), Fail> {
    let is_so = on_large_stack(&rt, move |stack| {
        is_shown(&rt, rt.alloc(), stack, DEEPEST, "--workers=4")
    })?;
    assert!(rt; is_so);
    Ok(())
}

#[test]
fn deep_sequences_are_shown_by_one_worker(rt: HostRuntime) -> Result<(), Fail> {
    let is_so = on_large_stack(&rt, move |stack| {
        is_shown(&rt, rt.alloc(), stack, SEQUENCES, "--workers=1")
    })?;
    assert!(rt; is_so);
    Ok(())
}

#[test]
fn deep_sequences_are_shown_by_four_workers(rt: HostRuntime) -> Result<(), Fail> {
    let is_so = on_large_stack(&rt, move |stack| {
        is_shown(&rt, rt.alloc(), stack, SEQUENCES, "--workers=4")
    })?;
    assert!(rt; is_so);
    Ok(())
}

#[test]
fn short_deep_sets_are_shown_on_the_stack_that_is_there(rt: HostRuntime) -> Result<(), Fail> {
    for workers in &WORKERS {
        let is_so = is_shown(&rt, rt.alloc(), Stack::Found, SHORT, workers)?;
        assert!(rt; is_so, "with {workers}");
    }
    Ok(())
}

#[test]
fn high_texts_are_answered_so(rt: HostRuntime) -> Result<(), Fail> {
    for place in 0..HIGH.len() {
        let is_so = on_large_stack(&rt, move |stack| {
            is_high_answered(&rt, rt.alloc(), stack, place)
        })?;
        assert!(rt; is_so, "at {place}");
    }
    Ok(())
}
