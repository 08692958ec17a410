//! What a text is answered: that it is fine, or its refusal.

use csp_kinds::check;
use csp_lex::tokens;
use csp_parse::parse;
use std::alloc::{AllocError, Global};

/// The answer of the first of the reader, the parser and the check that refuses the text, or `fine`.
pub(crate) fn answer(alloc: Global, text: &str) -> Result<String, AllocError> {
    match tokens(alloc, text.as_bytes()) {
        Ok(list) => match parse(alloc, &list) {
            Ok(raw) => match check(alloc, &raw) {
                Ok(_) => String::from_str(alloc, "fine"),
                Err(refused) => format!(in alloc; "{refused}"),
            },
            Err(refused) => format!(in alloc; "{refused}"),
        },
        Err(refused) => format!(in alloc; "{refused}"),
    }
}
