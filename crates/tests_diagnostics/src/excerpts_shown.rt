//! Lines of a text with a mark under a place, also under places that the text has not.

use csp_lex::Place;
use diagnostics::{excerpt, line_at, readable};
use std::test::Fail;

/// A text, the line and the column of a place, and what is shown.
type Row = (&'static str, u32, u32, &'static str);

static ROWS: [Row; 8] = [
    ("ab\ncd", 1, 1, "    ab\n    ^\n"),
    ("ab\ncd", 2, 2, "    cd\n     ^\n"),
    ("ab\ncd", 2, 3, "    cd\n      ^\n"),
    ("ab\ncd", 2, 9, "    cd\n      ^\n"),
    ("ab\ncd", 3, 1, "    \n    ^\n"),
    ("ab\ncd", 9, 5, "    \n    ^\n"),
    ("ab\ncd", 0, 0, "    ab\n    ^\n"),
    ("a\t日b", 1, 4, "    a 日b\n        ^\n"),
];

/// A number, and the line of `ab`, an empty line and `cd` with that number.
static LINES: [(u32, &str); 5] = [(0, "ab"), (1, "ab"), (2, ""), (3, "cd"), (4, "")];

/// Bytes, and what they spell before the first that is not UTF-8.
static SPELLED: [(&[u8], &str); 4] = [
    (&[], ""),
    (&[0x61, 0x62], "ab"),
    (&[0x61, 0xff, 0x62], "a"),
    (&[0xc3, 0xa9, 0xc3], "é"),
];

#[test]
fn places_are_marked_so(rt: HostRuntime) -> Result<(), Fail> {
    for (text, line, column, expected) in &ROWS {
        let place = Place {
            line: *line,
            column: *column,
        };
        let shown = excerpt(rt.alloc(), text, place)?;
        assert!(rt; shown.as_str() == *expected, "{shown}at {line}:{column}");
    }
    Ok(())
}

#[test]
fn lines_are_found(rt: HostRuntime) {
    for (number, expected) in &LINES {
        assert!(rt; line_at("ab\n\ncd", *number) == *expected, "at {number}");
    }
}

#[test]
fn what_is_utf8_is_read(rt: HostRuntime) {
    for (bytes, expected) in &SPELLED {
        assert!(rt; readable(bytes) == *expected, "{expected}");
    }
}
