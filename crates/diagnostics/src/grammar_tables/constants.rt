//! For equations that are values.

use crate::conditions::Condition::{BeforeName, BeforeNumber, Earlier, Here, HereName, NoneOpen};
use crate::grammar_tables::texts::CONSTANT;
use crate::tables::Advice;

const CONDITION: &str = "behind the condition of an `if` stands `then`, and behind a guard `&`";

const ROWS: &[Advice] = &[
    Advice {
        when: &[Earlier("=="), HereName],
        text: CONDITION,
    },
    Advice {
        when: &[Earlier("!="), HereName],
        text: CONDITION,
    },
    Advice {
        when: &[Earlier("<"), HereName],
        text: CONDITION,
    },
    Advice {
        when: &[Earlier("<="), HereName],
        text: CONDITION,
    },
    Advice {
        when: &[Earlier(">"), HereName],
        text: CONDITION,
    },
    Advice {
        when: &[Earlier(">="), HereName],
        text: CONDITION,
    },
    Advice {
        when: &[Earlier("if"), BeforeName, HereName],
        text: CONDITION,
    },
    Advice {
        when: &[BeforeNumber, Here("else")],
        text: CONSTANT,
    },
    Advice {
        when: &[BeforeNumber, HereName, NoneOpen],
        text: CONSTANT,
    },
    Advice {
        when: &[BeforeNumber, Here("datatype"), NoneOpen],
        text: CONSTANT,
    },
    Advice {
        when: &[BeforeNumber, Here("nametype"), NoneOpen],
        text: CONSTANT,
    },
    Advice {
        when: &[BeforeNumber, Here("channel"), NoneOpen],
        text: CONSTANT,
    },
    Advice {
        when: &[BeforeNumber, Here("assert"), NoneOpen],
        text: CONSTANT,
    },
];

/// The rows.
pub(crate) fn rows() -> &'static [Advice] {
    ROWS
}
