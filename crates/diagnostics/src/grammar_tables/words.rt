//! For words of FDR, and for what is asked in an assertion.

use crate::conditions::Condition::{Before, Behind, Earlier, Here, HereName, Opening};
use crate::grammar_tables::texts::{REFINED_FD, REFINED_RV, REFINEMENT};
use crate::tables::Advice;

const LET: &str = "there is no `let`: write `[] y:{E} @ P` for `let y = E within P`";

const CHANGES: &str =
    "leave the line out: `chase` and `prioritise` may change an answer, and nothing stands in their place";

const COMPRESSION: &str =
    "leave the line out, and the functions that it names where they are called: they change no answer";

const FREEDOM: &str = "write `:[deadlock free]` and `:[divergence free]`, without `-`";

const ROWS: &[Advice] = &[
    Advice {
        when: &[Here("within")],
        text: LET,
    },
    Advice {
        when: &[Before("within")],
        text: LET,
    },
    Advice {
        when: &[Before("subtype"), HereName],
        text: "there is no `subtype`: write the set, as `nametype E = {A, B}`",
    },
    Advice {
        when: &[Before("module"), HereName],
        text: "there are no modules: give the names in it a beginning of their own",
    },
    Advice {
        when: &[Before("print")],
        text: "leave the line out: nothing is printed",
    },
    Advice {
        when: &[Before("external"), Here("chase")],
        text: CHANGES,
    },
    Advice {
        when: &[Before("external"), Here("prioritise")],
        text: CHANGES,
    },
    Advice {
        when: &[Before("transparent"), HereName],
        text: COMPRESSION,
    },
    Advice {
        when: &[Before("external"), HereName],
        text: COMPRESSION,
    },
    Advice {
        when: &[Earlier("free"), Before("["), Here("FD")],
        text: "write `:[deadlock free]`, and beside it `assert P :[divergence free]`",
    },
    Advice {
        when: &[Opening("assert"), Earlier("free"), Before("["), HereName],
        text: "write `:[deadlock free]` or `:[deadlock free [F]]`, which ask for one thing",
    },
    Advice {
        when: &[Earlier("["), Before("deadlock"), Here("-")],
        text: FREEDOM,
    },
    Advice {
        when: &[Earlier("["), Before("divergence"), Here("-")],
        text: FREEDOM,
    },
    Advice {
        when: &[Before("["), Here("FD")],
        text: REFINED_FD,
    },
    Advice {
        when: &[Before("["), Here("livelock")],
        text: "write `:[divergence free]`",
    },
    Advice {
        when: &[Before("["), Here("deterministic")],
        text: "whether a process is deterministic cannot be asked",
    },
    Advice {
        when: &[Before("["), Here("has")],
        text: "put the trace on the left: `assert P [T= a -> b -> STOP` for `<a,b>`",
    },
    Advice {
        when: &[Before("["), Here("R"), Behind("=")],
        text: REFINED_RV,
    },
    Advice {
        when: &[Before("["), Here("V"), Behind("=")],
        text: REFINED_RV,
    },
    Advice {
        when: &[Before("["), HereName, Behind("=")],
        text: REFINEMENT,
    },
    Advice {
        when: &[Before("["), Here("=")],
        text: REFINEMENT,
    },
    Advice {
        when: &[Here("mod")],
        text: "the remainder is written `%`, as `x % 3`",
    },
    Advice {
        when: &[Here("div")],
        text: "there is no division: `x / y` is the `z` of `[] z:S @ z*y <= x and x < (z+1)*y & P`",
    },
];

/// The rows.
pub(crate) fn rows() -> &'static [Advice] {
    ROWS
}
