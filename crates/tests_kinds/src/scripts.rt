//! The scripts that fine texts are answered.

use crate::samples::{BUFFERS, MIXED, PAINTING};
use crate::show;
use csp_kinds::check;
use csp_lex::tokens;
use csp_parse::parse;
use std::alloc::{AllocError, Global};
use std::test::Fail;

/// A text, and what is shown of its script.
type Row = (&'static str, &'static str);

static ROWS: [Row; 4] = [
    ("", ""),
    (
        BUFFERS,
        "in.{0,1}; mid.{0,1}; out.{0,1}; of 0; of 0; of 0; of 2; failures; failures; ",
    ),
    (
        PAINTING,
        "Red and 1 more; {0,1,2,3}; {<>,<{0,2},{}>,<{1}>}; paint.{Red,Green}.{0,1,2,3}; wipe.{Red,Green}.{0,1,2,3}; \
         rows.{<>,<{0,2},{}>,<{1}>}; others.{<>,<{0,2},{}>,<{1}>}; stop; of 2; of 2; of 0; of 0; traces; ",
    ),
    (
        MIXED,
        "é and 1 more; y and 0 more; {}; {-1,2,3}; ω; c.{é,a'}.{false,true}; d.{é,a'}.{false,true}; \
         e.{y}.{-1,2,3}.{{},{-1,2,3}}; of 1; of 0; of 3; failures; traces; ",
    ),
];

/// What is shown of a text's script, or its refusal.
fn shown(alloc: Global, text: &str) -> Result<String, AllocError> {
    match tokens(alloc, text.as_bytes()) {
        Ok(list) => match parse(alloc, &list) {
            Ok(raw) => match check(alloc, &raw) {
                Ok(script) => show::script(alloc, &script),
                Err(refused) => format!(in alloc; "{refused}"),
            },
            Err(refused) => format!(in alloc; "{refused}"),
        },
        Err(refused) => format!(in alloc; "{refused}"),
    }
}

#[test]
fn scripts_are_made_so(rt: HostRuntime) -> Result<(), Fail> {
    for (text, expected) in &ROWS {
        let shown = shown(rt.alloc(), text)?;
        assert!(rt; shown.as_str() == *expected, "{shown} for\n{text}");
    }
    Ok(())
}
