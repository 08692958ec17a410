//! For what stands in the brackets of a head or a call.

use crate::conditions::Condition::{Before, BeforeName, Earlier, Here};
use crate::grammar_tables::texts::PAIRS;
use crate::tables::Advice;

const FUNCTIONS: &str =
    "only `head` `tail` `null` `elem` `member` `card` `union` `inter` `diff` are called in an expression: a call of an equation is a process";

const ROWS: &[Advice] = &[
    Advice {
        when: &[Earlier("("), BeforeName, Here(":")],
        text: "a parameter has no set: it has the values that the equation is called with",
    },
    Advice {
        when: &[Before("("), Here(")")],
        text: "brackets have something in them: an equation without parameters is `P = Q`, and its call is `P`",
    },
    Advice {
        when: &[Before("?"), Here("(")],
        text: PAIRS,
    },
    Advice {
        when: &[Earlier("CHAOS"), Before("("), Here("{|")],
        text: "there is no `CHAOS`: write `CHAOS = STOP |~| (a -> CHAOS [] c?x -> CHAOS)`",
    },
    Advice {
        when: &[Earlier("RUN"), Before("("), Here("{|")],
        text: "there is no `RUN`: write `RUN = a -> RUN [] c?x -> RUN`",
    },
    Advice {
        when: &[Before("("), Here("{|")],
        text: "a set of events is no argument of an equation",
    },
    Advice {
        when: &[Before("empty"), Here("(")],
        text: "write `null(s)` of a sequence, and `card(S) == 0` of a set",
    },
    Advice {
        when: &[Before("Union"), Here("(")],
        text: "write `union(A, union(B, C))` for `Union({A, B, C})`",
    },
    Advice {
        when: &[Before("Inter"), Here("(")],
        text: "write `inter(A, inter(B, C))` for `Inter({A, B, C})`",
    },
    Advice {
        when: &[Before("Seq"), Here("(")],
        text: "there are no infinite sets: write the sequences, as `{<>, <0>, <1>}`",
    },
    Advice {
        when: &[Before("length"), Here("(")],
        text: "write `#s` for `length(s)`",
    },
    Advice {
        when: &[Before("Set"), Here("(")],
        text: "write the sets, as `{{}, {0}, {1}, {0, 1}}` for `Set({0, 1})`",
    },
    Advice {
        when: &[BeforeName, Here("(")],
        text: FUNCTIONS,
    },
];

/// The rows.
pub(crate) fn rows() -> &'static [Advice] {
    ROWS
}
