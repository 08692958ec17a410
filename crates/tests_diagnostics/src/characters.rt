//! Messages on texts with characters that no table of scripts can show: a byte order mark, tabs, wide characters, bytes
//! that are not UTF-8, places behind the last line.

use crate::messages::message_on;
use std::test::Fail;

/// A text, and the message on it.
static ROWS: [(&str, &str); 13] = [
    (
        "\u{feff}P = STOP",
        "script.csp:1:1: L01: no token begins with this character\n    \u{feff}P = STOP\n    ^\nhelp: the file begins with a byte order mark, which is no part of a script: save it without one\n",
    ),
    (
        "include \"other.csp\"",
        "script.csp:1:9: L01: no token begins with this character\n    include \"other.csp\"\n            ^\nhelp: there are no texts and no `include`: put the text of the other file here\n",
    ),
    (
        "\tP = STOP $",
        "script.csp:1:11: L01: no token begins with this character\n     P = STOP $\n              ^\nhelp: there is no `$`: write `|~| x:S @ c!x -> P` for `c$x:S -> P`\n",
    ),
    (
        "P = STOP $\r\nQ = STOP\r\n",
        "script.csp:1:10: L01: no token begins with this character\n    P = STOP $ \n             ^\nhelp: there is no `$`: write `|~| x:S @ c!x -> P` for `c$x:S -> P`\n",
    ),
    (
        "P = 日本 $",
        "script.csp:1:8: L01: no token begins with this character\n    P = 日本 $\n             ^\nhelp: there is no `$`: write `|~| x:S @ c!x -> P` for `c$x:S -> P`\n",
    ),
    (
        "P = e\u{301} $",
        "script.csp:1:8: L01: no token begins with this character\n    P = e\u{301} $\n          ^\nhelp: there is no `$`: write `|~| x:S @ c!x -> P` for `c$x:S -> P`\n",
    ),
    (
        "P = a \u{2192} STOP",
        "script.csp:1:7: L01: no token begins with this character\n    P = a \u{2192} STOP\n          ^\nhelp: the arrow is written `->`\n",
    ),
    (
        "P = STOP\u{a0}[] STOP",
        "script.csp:1:9: L01: no token begins with this character\n    P = STOP\u{a0}[] STOP\n            ^\nhelp: this is a no-break space: write a space\n",
    ),
    (
        "P = STOP ` x",
        "script.csp:1:10: L01: no token begins with this character\n    P = STOP ` x\n             ^\nhelp: leave it out, or write it within a comment\n",
    ),
    (
        "P =\n",
        "script.csp:2:1: S03: the text ends within a declaration\n    \n    ^\n\
        note: the last token is the `=` at 1:3\nhelp: behind `=` stands a process, and behind that of a datatype or nametype its values\n",
    ),
    (
        "channel\n\n\n  ",
        "script.csp:4:3: S03: the text ends within a declaration\n      \n      ^\nnote: the last token is the `channel` at 1:1\nhelp: behind `channel` stands a name\n",
    ),
    (
        "-- 45678901234567890123456789012345678901234567890123456789012345678901234567890\nP = aaaaaaaaaaaaaaaaaaaabbbbbbbbbbbbbbbbbbbbccccccccccccccccccccdddddddddd $ eeeeeeeeeeeeeeeeeeee",
        "script.csp:2:76: L01: no token begins with this character\n    aaaaaaaaa\
        bbbbbbbbbbbbbbbbbbbbccccccccccccccccccccdddddddddd $ eeeeeeeeeeeeee\n                                                                ^\n\
        help: there is no `$`: write `|~| x:S @ c!x -> P` for `c$x:S -> P`\n",
    ),
    ("", "fine\n"),
];

/// Bytes, and the message on them.
static BYTES: [(&[u8], &str); 2] = [
    (
        &[0x50, 0x20, 0x3d, 0x20, 0xff, 0x50],
        "script.csp:1:5: L04: the text is not UTF-8 from here on\n    P = \n        ^\nhelp: save the file as UTF-8\n",
    ),
    (
        &[0x0a, 0x50, 0xe2, 0x86],
        "script.csp:2:2: L04: the text is not UTF-8 from here on\n    P\n     ^\nhelp: save the file as UTF-8\n",
    ),
];

#[test]
fn texts_of_any_characters_are_told_so(rt: HostRuntime) -> Result<(), Fail> {
    for (text, expected) in &ROWS {
        let message = message_on(rt.alloc(), text.as_bytes())?;
        assert!(rt;
            message.as_str() == *expected,
            "{message}and not\n{expected}"
        );
    }
    for (bytes, expected) in &BYTES {
        let message = message_on(rt.alloc(), bytes)?;
        assert!(rt;
            message.as_str() == *expected,
            "{message}and not\n{expected}"
        );
    }
    Ok(())
}

#[test]
fn a_text_that_is_too_long_is_told_so(rt: HostRuntime) -> Result<(), Fail> {
    let mut text = Vec::new(rt.alloc());
    for _ in 0..65_537 {
        text.push(b'a')?;
    }
    let message = message_on(rt.alloc(), &text)?;
    let expected =
        "script.csp:1:1: L05: a script has at most 65536 bytes\n    aaaaaaaaaaaaaaaaaaaaaaaaaaaaaaaaaaaaaaaaaaaaaaaaaaaaaaaaaaaaaaaaaaaaaaaaaaaa\n    ^\n";
    assert!(rt; message.as_str() == expected, "{message}");
    Ok(())
}
