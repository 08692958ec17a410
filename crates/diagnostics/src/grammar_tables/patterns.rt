//! For parameters that are patterns.

use crate::conditions::Condition::{Before, BeforeName, Earlier, Here, HereNumber};
use crate::tables::Advice;

const PATTERN: &str =
    "a parameter is a name, and no pattern: ask for its value in the body, as `P(n) = if n == 0 then Q else R`, with `null`, `head` and `tail` for a sequence";

const ROWS: &[Advice] = &[
    Advice {
        when: &[Before("("), HereNumber],
        text: PATTERN,
    },
    Advice {
        when: &[Before("("), Here("<")],
        text: PATTERN,
    },
    Advice {
        when: &[Before("("), Here("{")],
        text: PATTERN,
    },
    Advice {
        when: &[Before("("), Here("true")],
        text: PATTERN,
    },
    Advice {
        when: &[Before("("), Here("false")],
        text: PATTERN,
    },
    Advice {
        when: &[Earlier("("), BeforeName, Here("+")],
        text: PATTERN,
    },
    Advice {
        when: &[Earlier("("), BeforeName, Here("-")],
        text: PATTERN,
    },
    Advice {
        when: &[Earlier("("), BeforeName, Here("^")],
        text: PATTERN,
    },
    Advice {
        when: &[Earlier("("), BeforeName, Here(".")],
        text: PATTERN,
    },
];

/// The rows.
pub(crate) fn rows() -> &'static [Advice] {
    ROWS
}
