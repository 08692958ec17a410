//! For an operator between processes, or the beginning of one, that cannot stand where it does.

use crate::conditions::Condition::{
    Before, BeforeFunction, BeforeNumber, Behind, Earlier, Here, Opening,
};
use crate::grammar_tables::texts::{
    CONSTANT, EVENT_ALONE, MANY, NO_END, REFINED_FD, REFINED_RV, REFINEMENT, UNCALLED,
};
use crate::tables::Advice;

const ROWS: &[Advice] = &[
    Advice {
        when: &[Opening("channel"), Here(";")],
        text: NO_END,
    },
    Advice {
        when: &[Earlier("divergence"), Before("free"), Here("[")],
        text: "write `:[divergence free]`, without a model behind it",
    },
    Advice {
        when: &[BeforeFunction],
        text: UNCALLED,
    },
    Advice {
        when: &[Here("["), Behind("FD")],
        text: REFINED_FD,
    },
    Advice {
        when: &[Here("["), Behind("T")],
        text: REFINEMENT,
    },
    Advice {
        when: &[Here("["), Behind("F")],
        text: REFINEMENT,
    },
    Advice {
        when: &[Here("["), Behind("R")],
        text: REFINED_RV,
    },
    Advice {
        when: &[Here("["), Behind("V")],
        text: REFINED_RV,
    },
    Advice {
        when: &[Before("="), Here(";")],
        text: "write an equation that calls itself: `P(s) = if null(s) then SKIP else c!head(s) -> SKIP ; P(tail(s))`",
    },
    Advice {
        when: &[Before("="), Here("[|")],
        text: MANY,
    },
    Advice {
        when: &[Before(";"), Here(";")],
        text: "one `;` joins two processes, and none ends a declaration",
    },
    Advice {
        when: &[Before("->")],
        text: "put a choice over a set in brackets, as `a -> ([] x:S @ P)`",
    },
    Advice {
        when: &[Here("\\")],
        text: "put brackets around what is hidden from, as `(a -> P) \\ {a}`, or around both, as `a -> (P \\ {a})`",
    },
    Advice {
        when: &[Here("[[")],
        text: "put brackets around what is renamed, as `(P \\ {a})[[a <- b]]`, or around both, as `P [] (Q[[a <- b]])`",
    },
    Advice {
        when: &[Earlier("!")],
        text: EVENT_ALONE,
    },
    Advice {
        when: &[Earlier("?")],
        text: EVENT_ALONE,
    },
    Advice {
        when: &[Earlier(".")],
        text: EVENT_ALONE,
    },
    Advice {
        when: &[BeforeNumber],
        text: CONSTANT,
    },
    Advice {
        when: &[Here("[")],
        text: "put brackets around one of the two, as `(P [A || B] Q) [C || D] R`",
    },
    Advice {
        when: &[],
        text: "two different operators are kept apart by brackets, as `(P [] Q) |~| R` or `P [] (Q |~| R)`, and so are two with sets, as `(P [| A |] Q) [| B |] R`",
    },
];

/// The rows.
pub(crate) fn rows() -> &'static [Advice] {
    ROWS
}
