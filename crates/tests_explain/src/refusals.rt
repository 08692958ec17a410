//! Texts that are refused, and what is told of them. The file `script` holds them.

use crate::runs::{run_on_file, run_on_stack};
use program::Stack;
use std::alloc::Global;
use std::process::Abort;
use std::sync::Wait;
use std::test::Fail;
use std::thread::Threads;

const TEXT: &str = "channel a\nP = a => STOP\n";

const TOLD: &str = r"script:2:7: S01: this token cannot stand here
    P = a => STOP
          ^
help: the arrow is written `->`
";

fn is_refused<R: Abort + Threads + Wait + Sync>(
    rt: &R,
    alloc: Global,
    stack: Stack,
    text: &[u8],
    expected: &str,
) -> Result<(), Fail> {
    let told = run_on_stack(stack, alloc, rt, &["script"], text);
    assert_eq!(rt; str::from_utf8(&told.err)?, expected);
    assert!(rt; told.status == 3 && told.out.is_empty(), "at {expected}");
    Ok(())
}

#[test]
fn refusals_are_told_in_words(rt: HostRuntime) -> Result<(), Fail> {
    is_refused(&rt, rt.alloc(), Stack::Large, TEXT.as_bytes(), TOLD)?;
    is_refused(&rt, rt.alloc(), Stack::Found, TEXT.as_bytes(), TOLD)
}

// A control character in the name of a file is shown as a space.
#[test]
fn names_of_files_are_shown_so(rt: HostRuntime) -> Result<(), Fail> {
    let told = run_on_file(
        rt.alloc(),
        &rt,
        "a\u{1b}[2J\u{9b}b\n\u{e9}",
        b"channel a, a\n",
    );
    let expected = "a [2J b \u{e9}:1:12: K02: this name is declared already\n";
    assert!(rt; told.status == 3 && told.out.is_empty());
    assert!(rt; told.err.as_slice().starts_with(expected.as_bytes()));
    Ok(())
}

// Also where the file has more bytes than are read of it. On a stack of which nothing is known no text of over 4,096
// bytes is looked at.
#[test]
fn long_texts_are_told_so(rt: HostRuntime) -> Result<(), Fail> {
    let expected = r"script:1:1: L05: a script has at most 65536 bytes
    aaaaaaaaaaaaaaaaaaaaaaaaaaaaaaaaaaaaaaaaaaaaaaaaaaaaaaaaaaaaaaaaaaaaaaaaaaaa
    ^
";
    let text = vec![in rt.alloc(); b'a'; 70_000]?;
    is_refused(&rt, rt.alloc(), Stack::Large, &text, expected)?;
    is_refused(&rt, rt.alloc(), Stack::Found, &text, "refused thread\n")?;
    is_refused(
        &rt,
        rt.alloc(),
        Stack::Found,
        &text[..4_097],
        "refused thread\n",
    )
}
