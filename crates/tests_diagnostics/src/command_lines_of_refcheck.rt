//! Command lines of `refcheck`. What is expected comes from the ranges and defaults, and from the words of `clap`.

use settings::{CommandLineFault, read};
use std::alloc::Global;
use std::test::Fail;

// Words, the workers, pairs and nodes that they ask for, and whether names are unfolded at once.
type Taken = (&'static [&'static str], (usize, usize, usize, bool));

static TAKEN: [Taken; 11] = [
    (&["f"], (1, 100_000, 10_000, false)),
    (&["--workers=8", "f"], (8, 100_000, 10_000, false)),
    (&["--workers", "64", "f"], (64, 100_000, 10_000, false)),
    (
        &["f", "--max-pairs", "1000000"],
        (1, 1_000_000, 10_000, false),
    ),
    (&["f", "--max-pairs=1"], (1, 1, 10_000, false)),
    (&["--max-nodes", "03", "f"], (1, 100_000, 3, false)),
    (
        &["--max-nodes", "100000", "f"],
        (1, 100_000, 100_000, false),
    ),
    (
        &[
            "--max-nodes",
            "2",
            "--max-pairs",
            "3",
            "--workers",
            "4",
            "f",
        ],
        (4, 3, 2, false),
    ),
    (&["--unfold", "f"], (1, 100_000, 10_000, true)),
    (&["f", "--max-pairs=7", "--unfold"], (1, 7, 10_000, true)),
    (
        &["--max-nodes=5", "--", "--workers"],
        (1, 100_000, 5, false),
    ),
];

// Words, and the first line of what is said of them.
type Refusal = (&'static [&'static str], &'static str);

static REFUSED: [Refusal; 16] = [
    (
        &[],
        "error: the following required arguments were not provided:",
    ),
    (
        &["--workers", "0", "f"],
        "error: invalid value '0' for '--workers <N>': 0 is not in 1..=64",
    ),
    (
        &["--workers", "65", "f"],
        "error: invalid value '65' for '--workers <N>': 65 is not in 1..=64",
    ),
    (
        &["--max-pairs", "0", "f"],
        "error: invalid value '0' for '--max-pairs <N>': 0 is not in 1..=1000000",
    ),
    (
        &["--max-pairs", "1000001", "f"],
        "error: invalid value '1000001' for '--max-pairs <N>': 1000001 is not in 1..=1000000",
    ),
    (
        &["--max-nodes=0", "f"],
        "error: invalid value '0' for '--max-nodes <N>': 0 is not in 1..=100000",
    ),
    (
        &["--max-nodes", "100001", "f"],
        "error: invalid value '100001' for '--max-nodes <N>': 100001 is not in 1..=100000",
    ),
    (
        &["--max-nodes", "many", "f"],
        "error: invalid value 'many' for '--max-nodes <N>': invalid digit found in string",
    ),
    (
        &["--workers", "99999999999999999999", "f"],
        "error: invalid value '99999999999999999999' for '--workers <N>': number too large to fit in target type",
    ),
    (
        &["--workers", "8", "--workers", "9", "f"],
        "error: the argument '--workers <N>' cannot be used multiple times",
    ),
    (
        &["--unfold", "f", "--unfold"],
        "error: the argument '--unfold' cannot be used multiple times",
    ),
    (
        &["--unfold=yes", "f"],
        "error: unexpected value 'yes' for '--unfold' found; no more were expected",
    ),
    (&["f", "g"], "error: unexpected argument 'g' found"),
    (
        &["--max-rows", "1", "f"],
        "error: unexpected argument '--max-rows' found",
    ),
    (
        &["f", "--workers"],
        "error: a value is required for '--workers <N>' but none was supplied",
    ),
    (
        &["--workers", "--", "f"],
        "error: a value is required for '--workers <N>' but none was supplied",
    ),
];

// What the help says.
const HELPS: &[&str] = &[
    "Usage: refcheck [OPTIONS] <FILE>",
    "--workers <N>",
    "1 to 64",
    "[default: 1]",
    "--max-pairs <N>",
    "1 to 1000000",
    "[default: 100000]",
    "--max-nodes <N>",
    "1 to 100000",
    "[default: 10000]",
    "--unfold",
    "the same answers from fewer states",
    "unknown pairs",
    "unknown nodes",
    "Lines, each with the number of its assertion:\n",
    "L01 to L05: at line 3, column 5 the text gives no token\n",
    "S01 to S04:",
    "K01 to K06:",
    "`explain FILE 2`",
    "Status:",
    "Example:\n  refcheck --max-pairs 1000000 protocol.csp\n",
];

fn taken() -> &'static [Taken] {
    &TAKEN
}

fn refused() -> &'static [Refusal] {
    &REFUSED
}

fn choices(alloc: Global, words: &[&str]) -> Option<(usize, usize, usize, bool)> {
    let settings = read(alloc, words).ok()?;
    Some((
        settings.workers,
        settings.max_pairs,
        settings.max_nodes,
        settings.at_once,
    ))
}

// The text for the standard output.
fn asked(alloc: Global, words: &[&str]) -> Option<String> {
    match read(alloc, words) {
        Err(CommandLineFault::Help(text)) => Some(text),
        Err(CommandLineFault::Version(text)) => Some(text),
        _ => None,
    }
}

// The text for the standard error.
fn refusal(alloc: Global, words: &[&str]) -> Option<String> {
    match read(alloc, words) {
        Err(CommandLineFault::Refused(text)) => Some(text),
        _ => None,
    }
}

#[test]
fn each_option_is_taken(rt: HostRuntime) -> Result<(), Fail> {
    for (words, expected) in taken() {
        assert_eq!(rt; choices(rt.alloc(), words), Some(*expected), "at {words:?}");
    }
    let settings = read(rt.alloc(), &["--", "--workers"])
        .ok()
        .ok_or("settings")?;
    assert_eq!(rt; settings.file, "--workers");
    Ok(())
}

#[test]
fn what_is_wrong_is_said(rt: HostRuntime) -> Result<(), Fail> {
    for (words, line) in refused() {
        let text = refusal(rt.alloc(), words).ok_or("a refusal")?;
        assert!(rt; text.as_str().starts_with(*line), "at {words:?}: {text}");
    }
    let text = refusal(rt.alloc(), &["--workers", "65", "f"]).ok_or("a refusal")?;
    let expected =
        "error: invalid value '65' for '--workers <N>': 65 is not in 1..=64\n\nFor more information, try '--help'.\n";
    assert_eq!(rt; text.as_str(), expected);
    Ok(())
}

#[test]
fn help_and_version_are_asked_for(rt: HostRuntime) -> Result<(), Fail> {
    let help = asked(rt.alloc(), &["--help"]).ok_or("help")?;
    for part in HELPS {
        assert!(rt; help.as_str().contains(*part), "without {part}: {help}");
    }
    let short = asked(rt.alloc(), &["-h"]).ok_or("help")?;
    assert_eq!(rt; short.as_str(), help.as_str());
    let version = asked(rt.alloc(), &["--version"]).ok_or("version")?;
    assert_eq!(rt; version.as_str(), "refcheck 0.1.0\n");
    Ok(())
}
