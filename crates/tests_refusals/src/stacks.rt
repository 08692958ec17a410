//! Texts on a stack of which nothing is known.

use crate::runs::{Program, TEXT, run};
use program::{SHORT_TEXT, Stack};
use std::alloc::Global;
use std::test::Fail;

/// What the program tells of the script with blanks behind it, so many bytes in all, and whether it gave something.
fn is_told(
    alloc: Global,
    program: Program,
    length: usize,
    status: u8,
    err: &str,
) -> Result<bool, Fail> {
    let mut text = TEXT.as_bytes().to_vec(alloc)?;
    text.resize(length, b' ')?;
    let mut taken = [0u8; 256];
    let told = run(program, alloc, alloc, Stack::Found, &text, &mut taken);
    Ok(told.is(status, err) && (taken[0] != 0) == (status == 0))
}

#[test]
fn a_text_that_is_too_long_for_the_stack_is_refused(rt: HostRuntime) -> Result<(), Fail> {
    for program in [Program::Graph, Program::Walk] {
        assert!(rt;
            is_told(rt.alloc(), program, SHORT_TEXT, 0, "")?,
            "{program:?}"
        );
        assert!(rt;
            is_told(rt.alloc(), program, SHORT_TEXT + 1, 3, "refused thread\n")?,
            "{program:?}"
        );
    }
    Ok(())
}
