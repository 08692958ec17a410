//! Command lines of `explain`, with what they ask of it or why they are refused.

use crate::refusals::LIST;
use explain_settings::read;
use settings::CommandLineFault;
use std::test::Fail;

/// Workers, pairs, nodes, width, the file and the number of the assertion.
type Asked = (usize, usize, usize, usize, &'static str, usize);

/// Words, and what they ask for.
static TAKEN: [(&[&str], Asked); 13] = [
    (&["a.csp"], (1, 100_000, 10_000, 200, "a.csp", 0)),
    (&["a.csp", "3"], (1, 100_000, 10_000, 200, "a.csp", 3)),
    (&["a.csp", "0"], (1, 100_000, 10_000, 200, "a.csp", 0)),
    (
        &["--width", "0", "a.csp"],
        (1, 100_000, 10_000, 0, "a.csp", 0),
    ),
    (
        &["a.csp", "--width=80", "2"],
        (1, 100_000, 10_000, 80, "a.csp", 2),
    ),
    (
        &["--width=1000000", "a.csp"],
        (1, 100_000, 10_000, 1_000_000, "a.csp", 0),
    ),
    (
        &["--workers", "64", "a.csp"],
        (64, 100_000, 10_000, 200, "a.csp", 0),
    ),
    (&["--max-pairs=1", "a.csp"], (1, 1, 10_000, 200, "a.csp", 0)),
    (
        &["--max-nodes", "100000", "a.csp"],
        (1, 100_000, 100_000, 200, "a.csp", 0),
    ),
    (
        &["a.csp", "1000000"],
        (1, 100_000, 10_000, 200, "a.csp", 1_000_000),
    ),
    (
        &["--", "--width", "7"],
        (1, 100_000, 10_000, 200, "--width", 7),
    ),
    (&["12", "34"], (1, 100_000, 10_000, 200, "12", 34)),
    (
        &[
            "--workers=2",
            "--max-pairs=30",
            "--max-nodes=40",
            "--width=50",
            "a.csp",
            "6",
        ],
        (2, 30, 40, 50, "a.csp", 6),
    ),
];

/// Words that are refused, and how the text begins that says why.
static REFUSED: [(&[&str], &str); 14] = [
    (
        &[],
        "error: the following required arguments were not provided:\n",
    ),
    (
        &["--width", "0"],
        "error: the following required arguments were not provided:\n",
    ),
    (
        &["a.csp", "1", "2"],
        "error: unexpected argument '2' found\n",
    ),
    (
        &["--wide", "a.csp"],
        "error: unexpected argument '--wide' found\n",
    ),
    (
        &["--width=1", "--width=2", "a.csp"],
        "error: the argument '--width <N>' cannot be used multiple times\n",
    ),
    (
        &["--workers", "0", "a.csp"],
        "error: invalid value '0' for '--workers <N>': 0 is not in 1..=64\n",
    ),
    (
        &["--workers", "65", "a.csp"],
        "error: invalid value '65' for '--workers <N>': 65 is not in 1..=64\n",
    ),
    (
        &["--max-pairs", "0", "a.csp"],
        "error: invalid value '0' for '--max-pairs <N>': 0 is not in 1..=1000000\n",
    ),
    (
        &["--max-nodes", "100001", "a.csp"],
        "error: invalid value '100001' for '--max-nodes <N>': 100001 is not in 1..=100000\n",
    ),
    (
        &["--width", "1000001", "a.csp"],
        "error: invalid value '1000001' for '--width <N>': 1000001 is not in 0..=1000000\n",
    ),
    (
        &["--width=wide", "a.csp"],
        "error: invalid value 'wide' for '--width <N>': invalid digit found in string\n",
    ),
    (
        &["a.csp", "1000001"],
        "error: invalid value '1000001' for '[N]': 1000001 is not in 0..=1000000\n",
    ),
    (
        &["a.csp", "first"],
        "error: invalid value 'first' for '[N]': invalid digit found in string\n",
    ),
    (
        &["--width"],
        "error: a value is required for '--width <N>' but none was supplied\n",
    ),
];

#[test]
fn command_lines_ask_so(rt: HostRuntime) -> Result<(), Fail> {
    for (words, expected) in &TAKEN {
        let asked = read(rt.alloc(), words)?;
        let numbers = (asked.workers, asked.max_pairs, asked.max_nodes, asked.width);
        let (workers, pairs, nodes, width, file, assertion) = *expected;
        assert!(rt; numbers == (workers, pairs, nodes, width), "at {words:?}");
        assert!(rt;
            asked.file == file && asked.assertion == assertion,
            "at {words:?}"
        );
    }
    Ok(())
}

#[test]
fn counts_are_asked_for(rt: HostRuntime) -> Result<(), Fail> {
    assert!(rt; !read(rt.alloc(), &["a.csp"])?.count);
    assert!(rt; !read(rt.alloc(), &["--", "--count"])?.count);
    assert!(rt; read(rt.alloc(), &["a.csp", "--count", "3"])?.count);
    Ok(())
}

#[test]
fn names_at_once_are_asked_for(rt: HostRuntime) -> Result<(), Fail> {
    assert!(rt; !read(rt.alloc(), &["a.csp"])?.at_once);
    assert!(rt; !read(rt.alloc(), &["--count", "--", "--unfold"])?.at_once);
    assert!(rt; read(rt.alloc(), &["a.csp", "--unfold", "3"])?.at_once);
    Ok(())
}

#[test]
fn wrong_command_lines_are_refused(rt: HostRuntime) -> Result<(), Fail> {
    for (words, beginning) in &REFUSED {
        match read(rt.alloc(), words) {
            Err(CommandLineFault::Refused(text)) => {
                assert!(rt; text.starts_with(*beginning), "{text} at {words:?}");
            }
            _ => return Err(Fail::new("not refused")),
        }
    }
    Ok(())
}

#[test]
fn help_and_version_are_asked_for(rt: HostRuntime) -> Result<(), Fail> {
    match read(rt.alloc(), &["--version"]) {
        Err(CommandLineFault::Version(text)) => assert!(rt; text.as_str() == "explain 0.1.0\n"),
        _ => return Err(Fail::new("no version")),
    }
    match read(rt.alloc(), &["-h", "a.csp"]) {
        Err(CommandLineFault::Help(text)) => {
            assert!(rt; text.starts_with("Checks the assertions of a CSP script as refcheck does"));
            let refusals = format!(in rt.alloc();
                "Example:\n  explain --width 0 protocol.csp 3\n\nRefusals of a script, each told with its place, the line there and what may be meant:\n{LIST}"
            )?;
            assert!(rt; text.ends_with(refusals.as_str()), "{text}");
        }
        _ => return Err(Fail::new("no help")),
    }
    Ok(())
}
