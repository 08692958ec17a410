//! Texts on a stack of which nothing is known.

use crate::pieces::{Pieces, put_together};
use crate::runs::run_on_stack;
use program::Stack;
use std::test::Fail;

// Texts of as many bytes as such a stack takes, and of more: a status, the text and its lines.
const FOUND: &[(u8, Pieces, &str)] = &[
    (0, &[(" ", 4_096)], ""),
    (3, &[(" ", 4_097)], "refused thread\n"),
    (3, &[(" ", 65_537)], "refused thread\n"),
    (
        0,
        &[("channel a\nassert STOP [T= STOP", 1), (" ", 4_066)],
        "1 holds\n",
    ),
    (
        3,
        &[("channel a\nassert STOP [T= STOP", 1), (" ", 4_067)],
        "refused thread\n",
    ),
    (3, &[("channel", 1)], "refused S03 at 1:8\n"),
    (3, &[("channel", 586)], "refused thread\n"),
];

#[test]
fn texts_are_answered_so_on_the_stack_that_is_there(rt: HostRuntime) -> Result<(), Fail> {
    for (status, pieces, lines) in FOUND {
        let text = put_together(rt.alloc(), pieces)?;
        let told = run_on_stack(Stack::Found, rt.alloc(), &rt, &["script"], text.as_bytes());
        assert!(rt; told.is_answered(*status, lines), "at {pieces:?}");
    }
    Ok(())
}
