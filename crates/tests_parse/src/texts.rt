//! What a text is read as: its tree, shown with brackets round each part, or its refusal.

use crate::show_script;
use csp_lex::tokens;
use csp_parse::parse;
use std::alloc::{AllocError, Global};

/// The tree of a text, or the refusal of its tokens.
pub(crate) fn read(alloc: Global, text: &str) -> Result<String, AllocError> {
    match tokens(alloc, text.as_bytes()) {
        Ok(list) => match parse(alloc, &list) {
            Ok(raw) => show_script::script(alloc, &raw),
            Err(refused) => format!(in alloc; "{refused}"),
        },
        Err(refused) => format!(in alloc; "{refused}"),
    }
}

/// A text as often as `times` says, between two others.
pub(crate) fn repeated(
    alloc: Global,
    before: &str,
    part: &str,
    times: usize,
    behind: &str,
) -> Result<String, AllocError> {
    let mut text = String::from_str(alloc, before)?;
    for _ in 0..times {
        text.push_str(part)?;
    }
    text.push_str(behind)?;
    Ok(text)
}
