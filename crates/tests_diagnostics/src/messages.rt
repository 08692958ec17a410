//! The message on a text.

use csp_kinds::check;
use csp_lex::tokens;
use csp_parse::parse;
use diagnostics::{Fault, Refusal, message};
use std::alloc::{AllocError, Global};

/// The file that the texts are said to stand in.
const FILE: &str = "script.csp";

/// The refusal of the text by the first of the lexer, the parser and the check that refuses it, if one does.
pub(crate) fn refusal_of(alloc: Global, text: &[u8]) -> Result<Option<Refusal>, AllocError> {
    match tokens(alloc, text) {
        Ok(list) => match parse(alloc, &list) {
            Ok(raw) => match check(alloc, &raw) {
                Ok(_) => Ok(None),
                Err(csp_kinds::Refused::Fault { fault, place }) => Ok(Some(Refusal {
                    fault: Fault::Kinds(fault),
                    place,
                })),
                Err(csp_kinds::Refused::Memory) => Err(AllocError),
            },
            Err(csp_parse::Refused::Grammar { fault, place }) => Ok(Some(Refusal {
                fault: Fault::Grammar(fault),
                place,
            })),
            Err(csp_parse::Refused::Memory) => Err(AllocError),
        },
        Err(csp_lex::Refused::Text { fault, place }) => Ok(Some(Refusal {
            fault: Fault::Text(fault),
            place,
        })),
        Err(csp_lex::Refused::Memory) => Err(AllocError),
    }
}

/// The message on the text, or that it is fine.
pub(crate) fn message_on(alloc: Global, text: &[u8]) -> Result<String, AllocError> {
    match refusal_of(alloc, text)? {
        Some(refusal) => message(alloc, FILE, text, refusal),
        None => String::from_str(alloc, "fine\n"),
    }
}
