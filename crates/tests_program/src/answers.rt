//! Command lines and texts that no table of cases can show.

use crate::command_lines::wrong_words;
use crate::outcomes::BEYOND_STOP;
use crate::runs::{check, run_on};
use std::test::Fail;

#[test]
fn a_file_without_a_name_is_refused(rt: HostRuntime) -> Result<(), Fail> {
    let told = run_on(rt.alloc(), &rt, &[""], b"");
    assert!(rt; told.is_refused("refused file\n"));
    Ok(())
}

#[test]
fn wrong_command_lines_are_refused(rt: HostRuntime) -> Result<(), Fail> {
    for (words, said) in wrong_words() {
        let told = run_on(rt.alloc(), &rt, words, BEYOND_STOP.0.as_bytes());
        let is_said = told.err.as_slice().starts_with(said.as_bytes());
        assert!(rt;
            told.status == 3 && told.out.is_empty() && is_said,
            "at {words:?}"
        );
    }
    Ok(())
}

#[test]
fn help_and_version_are_shown(rt: HostRuntime) -> Result<(), Fail> {
    let version = run_on(rt.alloc(), &rt, &["--version"], b"");
    assert!(rt; version.is(0, "refcheck 0.1.0\n", ""));
    let help = run_on(rt.alloc(), &rt, &["--help"], b"");
    let said = b"Checks the refinement assertions of a CSP script";
    assert!(rt; help.status == 0 && help.err.is_empty());
    assert!(rt; help.out.as_slice().starts_with(said));
    let other = run_on(rt.alloc(), &rt, &["-h", "script"], b"");
    assert_eq!(rt; other.out.as_slice(), help.out.as_slice());
    Ok(())
}

#[test]
fn bytes_that_are_no_text_are_refused(rt: HostRuntime) -> Result<(), Fail> {
    let told = check(rt.alloc(), &rt, &[0x50, 0xff]);
    assert!(rt; told.is_refused("refused L04 at 1:2\n"));
    Ok(())
}
