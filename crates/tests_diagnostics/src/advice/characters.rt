//! For characters that begin no token.

use crate::messages::message_on;
use diagnostics::CHARACTERS;
use std::test::Fail;

/// Each character, and what is told of it.
static ROWS: [(char, &str); 13] = [
    (
        '\u{feff}',
        "the file begins with a byte order mark, which is no part of a script: save it without one",
    ),
    (
        '"',
        "there are no texts and no `include`: put the text of the other file here",
    ),
    (
        '\'',
        "there are no characters as values: declare them, as `datatype Letter = X | Y`",
    ),
    (
        '$',
        "there is no `$`: write `|~| x:S @ c!x -> P` for `c$x:S -> P`",
    ),
    (
        '_',
        "no name begins with `_`: give an input that is not used a name, as `c?x`",
    ),
    (
        '/',
        "there is no `/`, and no `/+`: `x / y` is the `z` of `[] z:S @ z*y <= x and x < (z+1)*y & P`; a comment begins with `--`",
    ),
    ('~', "internal choice is written `|~|`, and negation `not`"),
    ('\u{2192}', "the arrow is written `->`"),
    ('\u{25a1}', "external choice is written `[]`"),
    ('\u{2293}', "internal choice is written `|~|`"),
    ('\u{2291}', "refinement is written `[T=` or `[F=`"),
    (
        '\u{2013}',
        "this is a dash: write `-`, and `--` before a comment",
    ),
    ('\u{a0}', "this is a no-break space: write a space"),
];

#[test]
fn each_character_is_told_so(rt: HostRuntime) -> Result<(), Fail> {
    assert!(rt; CHARACTERS.len() == ROWS.len());
    for (character, advice) in &ROWS {
        let script = format!(in rt.alloc(); "P = STOP {character}")?;
        let message = message_on(rt.alloc(), script.as_bytes())?;
        let told = format!(in rt.alloc(); "\nhelp: {advice}\n")?;
        assert!(rt; message.ends_with(told.as_str()), "{message}and not{told}");
    }
    Ok(())
}
