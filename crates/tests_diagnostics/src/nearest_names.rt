//! Words, and the name that is spelled most like each: one that at most two edits lead to, and no more edits than half
//! the word's length.

use diagnostics::nearest;
use std::test::Fail;

/// A word, names, and the one of them that is meant.
type Row = (&'static str, &'static [&'static str], Option<&'static str>);

static ROWS: [Row; 12] = [
    ("COPPY", &["BUFFER", "COPY"], Some("COPY")),
    ("COPY", &["COPY1", "COPY"], Some("COPY")),
    (
        "receive",
        &["recover", "receiver", "send"],
        Some("receiver"),
    ),
    ("ab", &["ac"], Some("ac")),
    ("ab", &["cd"], None),
    ("abc", &["abde"], None),
    ("abcd", &["abxy"], Some("abxy")),
    ("abcdef", &["abcxyz"], None),
    ("a", &["b"], None),
    ("a", &["b", "a"], Some("a")),
    ("é", &["e"], None),
    ("COPY", &[], None),
];

#[test]
fn the_nearest_name_is_found(rt: HostRuntime) -> Result<(), Fail> {
    for (word, names, expected) in &ROWS {
        let found = nearest(rt.alloc(), word, names)?;
        assert!(rt; found == *expected, "at {word}");
    }
    Ok(())
}
