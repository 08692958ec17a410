//! Texts at the limits and past them.

use crate::pieces::{Pieces, put_together};
use crate::runs::check;
use std::alloc::Global;
use std::process::Abort;
use std::sync::Wait;
use std::test::Fail;
use std::thread::Threads;

// Texts at the limits and past them: a status, the text and its lines.
const LONG: &[(u8, Pieces, &str)] = &[
    (
        1,
        &[
            ("channel a\nassert STOP [T= ", 1),
            ("a -> ", 100),
            ("STOP", 1),
        ],
        "1 fails trace <> event a\n",
    ),
    (
        3,
        &[
            ("channel a\nassert STOP [T= ", 1),
            ("a -> ", 101),
            ("STOP", 1),
        ],
        "refused S02 at 2:519\n",
    ),
    (0, &[("P = ", 1), ("(", 100), ("STOP", 1), (")", 100)], ""),
    (
        3,
        &[("P = ", 1), ("(", 101), ("STOP", 1), (")", 101)],
        "refused S02 at 1:105\n",
    ),
    (
        0,
        &[("channel a\nP = ", 1), ("a -> ", 100), ("STOP", 1)],
        "",
    ),
    (
        3,
        &[("channel a\nP = ", 1), ("a -> ", 101), ("STOP", 1)],
        "refused S02 at 2:507\n",
    ),
    (0, &[(" ", 65_536)], ""),
    (3, &[(" ", 65_537)], "refused L05 at 1:1\n"),
    (3, &[("\u{ff}", 40_000)], "refused L05 at 1:1\n"),
    (0, &[("channel c : {0..1023}.{0..3}", 1)], ""),
    (
        3,
        &[(
            "channel c : {0..1023}\nchannel d : {0..1023}.{0..2}\nchannel e",
            1,
        )],
        "refused K06 at 3:9\n",
    ),
    (3, &[("channel c : {0..1024}", 1)], "refused K05 at 1:13\n"),
];

fn long_are_answered_so<R: Abort + Threads + Wait + Sync>(
    rt: &R,
    alloc: Global,
) -> Result<(), Fail> {
    for (status, pieces, lines) in LONG {
        let text = put_together(alloc, pieces)?;
        let told = check(alloc, rt, text.as_bytes());
        assert!(rt; told.is_answered(*status, lines), "at {pieces:?}");
    }
    Ok(())
}

#[test]
fn texts_at_the_limits_are_answered_so(rt: HostRuntime) -> Result<(), Fail> {
    long_are_answered_so(&rt, rt.alloc())
}
