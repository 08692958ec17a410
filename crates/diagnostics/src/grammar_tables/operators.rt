//! For operators in expressions, and for what is missing before a token.

use crate::conditions::Condition::{
    Before, BeforeName, Earlier, Here, HereName, NoneOpen, Open, Opening,
};
use crate::grammar_tables::texts::{ASSERTION, NO_END};
use crate::tables::Advice;

const CALLED: &str =
    "what stands before this is a process, and has no value: write `#s` for `length(s)`, and `card(S) == 0` for `empty(S)`";

const FIELD: &str = "a field is one name or number, or stands in brackets, as `c!(n+1)`";

const HEAD: &str =
    "this `=` makes the name before it the head of an equation: the declaration above may lack a process at its end, as behind `->`; equality is written `==`";

const EVENT: &str =
    "before `->` stands an event, a channel with its fields: a process is followed by `;`";

const ROWS: &[Advice] = &[
    Advice {
        when: &[Before(")"), Here("<")],
        text: CALLED,
    },
    Advice {
        when: &[Before(")"), Here("<=")],
        text: CALLED,
    },
    Advice {
        when: &[Before(")"), Here(">")],
        text: CALLED,
    },
    Advice {
        when: &[Before(")"), Here(">=")],
        text: CALLED,
    },
    Advice {
        when: &[Before(")"), Here("==")],
        text: CALLED,
    },
    Advice {
        when: &[Before(")"), Here("!=")],
        text: CALLED,
    },
    Advice {
        when: &[Before(")"), Here("+")],
        text: CALLED,
    },
    Advice {
        when: &[Before(")"), Here("-")],
        text: CALLED,
    },
    Advice {
        when: &[Before(")"), Here("&")],
        text: "before `&` stands a truth value, and no process",
    },
    Advice {
        when: &[Here("+")],
        text: FIELD,
    },
    Advice {
        when: &[Here("-")],
        text: FIELD,
    },
    Advice {
        when: &[Here("*")],
        text: FIELD,
    },
    Advice {
        when: &[Here("%")],
        text: FIELD,
    },
    Advice {
        when: &[Here("^")],
        text: FIELD,
    },
    Advice {
        when: &[Opening("channel"), BeforeName, NoneOpen],
        text: "commas stand between channels, as `channel a, b`, and dots between the sets of their fields, as `channel c : {0..1}.Bool`",
    },
    Advice {
        when: &[Opening("assert"), NoneOpen],
        text: ASSERTION,
    },
    Advice {
        when: &[Earlier(";"), BeforeName, Here("=")],
        text: NO_END,
    },
    Advice {
        when: &[Here("=")],
        text: HEAD,
    },
    Advice {
        when: &[Here("->")],
        text: EVENT,
    },
    Advice {
        when: &[BeforeName, HereName, NoneOpen],
        text: "where a name begins an equation, `=` or `(` stands behind it; two processes are joined by an operator, as `P ; Q`",
    },
    Advice {
        when: &[BeforeName, HereName, Open("(")],
        text: "parameters, and what an equation is called with, are kept apart by commas, as `P(x, y)`, and processes are joined by an operator, as `P ; Q`",
    },
];

/// The rows.
pub(crate) fn rows() -> &'static [Advice] {
    ROWS
}
