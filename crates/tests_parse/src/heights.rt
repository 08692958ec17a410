//! Texts at the limit of heights and over it.

use crate::texts::{read, repeated};
use std::alloc::{AllocError, Global};
use std::process::Abort;
use std::test::Fail;

/// A text that is put together: what stands first, what is repeated and how often, and what stands behind.
type Repeated = (&'static str, &'static str, usize, &'static str);

/// Two such texts, the one behind the other, and their refusal. Without one they are equations, the first for `P`.
type Height = (Repeated, Repeated, Option<&'static str>);

const NOTHING: Repeated = ("", "", 0, "");

const HEIGHTS: &[Height] = &[
    // Groups beside one another do not add up, and each declaration begins anew.
    (("P = ", "(", 99, "STOP"), ("", ")", 99, ""), None),
    (("P = ", "(", 100, "STOP"), ("", ")", 100, ""), None),
    (("P = ", "(", 98, "a -> STOP"), ("", ")", 98, ""), None),
    (("P = ", "(", 99, "a -> STOP"), ("", ")", 99, ""), None),
    (("P = ", "(", 98, "a -> b -> STOP"), ("", ")", 98, ""), None),
    (("P = ", "(", 100, "x"), ("", ")", 100, ""), None),
    (("P = ", "(", 99, "x"), ("", ")", 99, " & STOP"), None),
    (("P = ", "not ", 99, "x & STOP"), NOTHING, None),
    (("P = Q", "[[a <- b]]", 100, ""), NOTHING, None),
    (("P = ", "a ->", 99, "STOP"), NOTHING, None),
    (("P = ", "a ->", 100, "STOP"), NOTHING, None),
    (
        ("", "P = Q((1+1)*(1+1),(1+1)*(1+1)) ", 50, ""),
        NOTHING,
        None,
    ),
    (("P = (((1 == 1) & STOP))", "[]STOP", 95, ""), NOTHING, None),
    (("P = STOP", "[>STOP", 100, ""), NOTHING, None),
    (("P = d!", "(B.", 99, "1"), ("", ")", 99, " -> STOP"), None),
    (
        ("P = STOP nametype N = ", "(B.", 100, "1"),
        ("", ")", 100, ""),
        None,
    ),
    // Two closing brackets in one close both, so what stands behind them is no higher than before.
    (
        ("P = STOP ", "assert P :[deadlock free [F]]", 101, ""),
        NOTHING,
        None,
    ),
    (
        ("P = STOP assert ", "(", 99, "STOP"),
        ("", ")", 99, ":[deadlock free [F]]"),
        None,
    ),
    (
        ("P = STOP assert ", "a ->", 98, "STOP"),
        ("", "", 0, ":[deadlock free [F]]"),
        None,
    ),
    (
        ("P = STOP assert not ", "(", 98, "STOP"),
        ("", ")", 98, ":[divergence free]"),
        None,
    ),
    (
        ("P = STOP assert ", "a ->", 99, "STOP"),
        ("", "", 0, ":[deadlock free [F]]"),
        Some("S02 at 1:433"),
    ),
    (
        ("P = STOP assert ", "a ->", 100, "STOP"),
        ("", "", 0, ":[deadlock free]"),
        Some("S02 at 1:422"),
    ),
    (
        ("P = STOP assert not ", "(", 99, "STOP"),
        ("", ")", 99, ":[deadlock free]"),
        Some("S02 at 1:224"),
    ),
    (
        ("P = STOP assert not ", "(", 100, "STOP"),
        ("", ")", 100, ":[deadlock free]"),
        Some("S02 at 1:120"),
    ),
    // A refused token that is too high is refused for its height.
    (
        ("P = ", "(", 101, "STOP"),
        ("", ")", 101, ""),
        Some("S02 at 1:105"),
    ),
    (
        ("P = ", "(", 100, "a -> STOP"),
        ("", ")", 100, ""),
        Some("S02 at 1:107"),
    ),
    (
        ("P = ", "(", 101, "a -> STOP"),
        ("", ")", 101, ""),
        Some("S02 at 1:105"),
    ),
    (
        ("P = ", "(", 99, "a -> b -> STOP"),
        ("", ")", 99, ""),
        Some("S02 at 1:111"),
    ),
    (
        ("P = ", "(", 101, "x"),
        ("", ")", 101, ""),
        Some("S02 at 1:105"),
    ),
    (
        ("P = ", "(", 100, "x"),
        ("", ")", 100, " & a -> STOP"),
        Some("S02 at 1:207"),
    ),
    (
        ("P = ", "not ", 100, "x & STOP"),
        NOTHING,
        Some("S02 at 1:407"),
    ),
    (
        ("P = Q", "[[a <- b]]", 101, ""),
        NOTHING,
        Some("S02 at 1:1006"),
    ),
    (
        ("P = STOP", "[>STOP", 101, ""),
        NOTHING,
        Some("S02 at 1:609"),
    ),
    (
        ("P = d!", "(B.", 100, "1"),
        ("", ")", 100, " -> STOP"),
        Some("S02 at 1:409"),
    ),
    (
        ("P = d!", "(B.", 101, "1"),
        ("", ")", 101, " -> STOP"),
        Some("S02 at 1:307"),
    ),
    (
        ("datatype D = B.", "(B.", 101, "1"),
        ("", ")", 101, ""),
        Some("S02 at 1:316"),
    ),
    (
        ("nametype N = ", "(", 101, "1"),
        ("", ")", 101, ""),
        Some("S02 at 1:114"),
    ),
    (("P = ", "a ->", 101, "STOP"), NOTHING, Some("S02 at 1:407")),
    (("P = ", "(", 100, "STOP("), NOTHING, Some("S02 at 1:109")),
    (
        ("P = ", "(", 99, "STOP"),
        ("", ")", 99, "("),
        Some("S01 at 1:207"),
    ),
    (
        ("P = ", "(", 100, "STOP"),
        ("", ")", 100, "("),
        Some("S02 at 1:209"),
    ),
    (
        ("P = (1 == 1 & STOP)", "[](1 == 1 & STOP)", 98, ""),
        NOTHING,
        Some("S02 at 1:838"),
    ),
    (
        ("P = (((1 == 1) & STOP))", "[]STOP", 96, ""),
        NOTHING,
        Some("S02 at 1:594"),
    ),
];

fn text_of(alloc: Global, height: &Height) -> Result<String, AllocError> {
    let (one, other, _) = height;
    let front = repeated(alloc, one.0, one.1, one.2, one.3)?;
    let back = repeated(alloc, other.0, other.1, other.2, other.3)?;
    repeated(alloc, &front, &back, 1, "")
}

/// Whether the answer is the refusal, or a tree where there is none.
fn is_expected(answer: &str, refusal: Option<&str>) -> bool {
    match refusal {
        Some(expected) => answer == expected,
        None => answer.starts_with("P@"),
    }
}

fn is_as_high(rt: &impl Abort, alloc: Global, height: &Height) -> Result<(), Fail> {
    let text = text_of(alloc, height)?;
    let answer = read(alloc, &text)?;
    assert!(rt;
        is_expected(&answer, height.2),
        "`{text}` is read as `{answer}`"
    );
    Ok(())
}

#[test]
fn heights_have_a_limit(rt: HostRuntime) -> Result<(), Fail> {
    for height in HEIGHTS {
        is_as_high(&rt, rt.alloc(), height)?;
    }
    Ok(())
}
