//! Operators of processes behind one another: a chain goes on with its own, and all others are refused.

use crate::texts::{read, repeated};
use std::alloc::{AllocError, Global};

/// A process, the refusal of an operator behind it, and the operators that are not refused there.
pub(crate) type First = (&'static str, &'static str, [&'static str; 2]);

static FIRSTS: [First; 18] = [
    ("P = Q [] R ", "S04 at 1:12", ["[]", ""]),
    ("P = Q |~| R ", "S04 at 1:13", ["|~|", ""]),
    ("P = Q ; R ", "S04 at 1:11", [";", ""]),
    ("P = Q ||| R ", "S04 at 1:13", ["|||", ""]),
    ("P = Q /\\ R ", "S04 at 1:12", ["/\\", ""]),
    ("P = Q [> R ", "S04 at 1:12", ["[>", ""]),
    ("P = Q [] R [] S ", "S04 at 1:17", ["[]", ""]),
    ("P = Q |~| R |~| S ", "S04 at 1:19", ["|~|", ""]),
    ("P = Q ; R ; S ", "S04 at 1:15", [";", ""]),
    ("P = Q ||| R ||| S ", "S04 at 1:19", ["|||", ""]),
    ("P = Q /\\ R /\\ S ", "S04 at 1:17", ["/\\", ""]),
    ("P = Q [> R [> S ", "S04 at 1:17", ["[>", ""]),
    ("P = Q [| {a} |] R ", "S04 at 1:19", ["", ""]),
    ("P = Q [{a} || {b}] R ", "S04 at 1:22", ["", ""]),
    ("P = Q \\ {a} ", "S04 at 1:13", ["\\", ""]),
    ("P = Q[[a <- b]] ", "S04 at 1:17", ["[[", "\\"]),
    ("P = Q[[a <- b]][[c <- d]] ", "S04 at 1:27", ["[[", "\\"]),
    ("P = Q[[a <- b]] \\ {a} ", "S04 at 1:23", ["\\", ""]),
];

pub(crate) fn firsts() -> &'static [First] {
    &FIRSTS
}

/// Each operator, and what it stands with.
const SECONDS: &[(&str, &str)] = &[
    ("[]", "[] S"),
    ("|~|", "|~| S"),
    (";", "; S"),
    ("|||", "||| S"),
    ("/\\", "/\\ S"),
    ("[>", "[> S"),
    ("[|", "[| {c} |] S"),
    ("[", "[{c} || {d}] S"),
    ("\\", "\\ {c}"),
    ("[[", "[[c <- d]]"),
];

/// Whether a second operator behind a first one is read or refused as the first one's line says.
fn goes_on(alloc: Global, first: &First, second: &(&str, &str)) -> Result<bool, AllocError> {
    let text = repeated(alloc, first.0, second.1, 1, "")?;
    let answer = read(alloc, &text)?;
    if first.2[0] == second.0 || first.2[1] == second.0 {
        return Ok(answer.as_str().starts_with("P@1:1 = ("));
    }
    Ok(answer.as_str() == first.1)
}

/// What stands behind a first operator and is not read or refused as the first one's line says, if there is one.
pub(crate) fn first_wrong(
    alloc: Global,
    first: &First,
) -> Result<Option<&'static str>, AllocError> {
    for second in SECONDS {
        if !goes_on(alloc, first, second)? {
            return Ok(Some(second.1));
        }
    }
    Ok(None)
}
