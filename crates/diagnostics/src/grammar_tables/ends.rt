//! For a text that ends within a declaration.

use crate::conditions::Condition::{Before, BeforeFunction, Earlier, NoneOpen, Opening};
use crate::grammar_tables::texts::{ASSERTION, EVENT_ALONE, UNCALLED};
use crate::tables::Advice;

const NAMED: &str = "behind `{before}` stands a name";

const OPERATOR_END: &str = "behind this operator stands a process";

const ROWS: &[Advice] = &[
    Advice {
        when: &[Before("channel")],
        text: NAMED,
    },
    Advice {
        when: &[Before("datatype")],
        text: NAMED,
    },
    Advice {
        when: &[Before("nametype")],
        text: NAMED,
    },
    Advice {
        when: &[Before("->")],
        text: "behind `->` stands a process",
    },
    Advice {
        when: &[BeforeFunction],
        text: UNCALLED,
    },
    Advice {
        when: &[Earlier("!")],
        text: EVENT_ALONE,
    },
    Advice {
        when: &[Earlier("?")],
        text: EVENT_ALONE,
    },
    Advice {
        when: &[Before("=")],
        text: "behind `=` stands a process, and behind that of a datatype or nametype its values",
    },
    Advice {
        when: &[Before(";")],
        text: "behind `;` stands a process, and none ends a declaration",
    },
    Advice {
        when: &[Before("[]")],
        text: OPERATOR_END,
    },
    Advice {
        when: &[Before("|~|")],
        text: OPERATOR_END,
    },
    Advice {
        when: &[Before("|||")],
        text: OPERATOR_END,
    },
    Advice {
        when: &[Before("/\\")],
        text: OPERATOR_END,
    },
    Advice {
        when: &[Before("[>")],
        text: OPERATOR_END,
    },
    Advice {
        when: &[Before("&")],
        text: OPERATOR_END,
    },
    Advice {
        when: &[Opening("assert"), NoneOpen],
        text: ASSERTION,
    },
];

/// The rows.
pub(crate) fn rows() -> &'static [Advice] {
    ROWS
}
