//! For `if` where an operand or an expression is asked for.

use crate::conditions::Condition::{Before, Here};
use crate::tables::Advice;

const IF_OPERAND: &str = "put the `if` in brackets, as `a -> (if x == 0 then P else Q)`";

const IF_VALUE: &str =
    "an expression has no `if`: write it around the process, as `if x == 0 then c!1 -> P else c!0 -> P`";

const ROWS: &[Advice] = &[
    Advice {
        when: &[Before("->"), Here("if")],
        text: IF_OPERAND,
    },
    Advice {
        when: &[Before("&"), Here("if")],
        text: IF_OPERAND,
    },
    Advice {
        when: &[Before("[]"), Here("if")],
        text: IF_OPERAND,
    },
    Advice {
        when: &[Before("|~|"), Here("if")],
        text: IF_OPERAND,
    },
    Advice {
        when: &[Before(";"), Here("if")],
        text: IF_OPERAND,
    },
    Advice {
        when: &[Before("|||"), Here("if")],
        text: IF_OPERAND,
    },
    Advice {
        when: &[Before("/\\"), Here("if")],
        text: IF_OPERAND,
    },
    Advice {
        when: &[Before("[>"), Here("if")],
        text: IF_OPERAND,
    },
    Advice {
        when: &[Before("|]"), Here("if")],
        text: IF_OPERAND,
    },
    Advice {
        when: &[Before("]"), Here("if")],
        text: IF_OPERAND,
    },
    Advice {
        when: &[Here("if")],
        text: IF_VALUE,
    },
];

/// The rows.
pub(crate) fn rows() -> &'static [Advice] {
    ROWS
}
