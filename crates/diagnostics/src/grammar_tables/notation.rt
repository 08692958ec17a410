//! For signs and words of other notations, and for what keeps declarations apart.

use crate::conditions::Condition::{
    Before, BeforeName, BeforeNumber, Behind, Earlier, Here, NoneOpen,
};
use crate::grammar_tables::texts::{EQUALITY, NO_END};
use crate::tables::Advice;

const NO_BRACKET: &str =
    "no bracket is open here: leave it out, or look back for the one that it closes";

const ROWS: &[Advice] = &[
    Advice {
        when: &[Before("&"), Here("&")],
        text: "truth values are joined by `and`: one `&` stands between a guard and its process",
    },
    Advice {
        when: &[BeforeNumber, Here("||")],
        text: "truth values are joined by `or`",
    },
    Advice {
        when: &[Here("||")],
        text: "parallel composition names the events that are shared, as `P [| {| a |} |] Q`, or those of each side, as `P [{| a |} || {| b |}] Q`",
    },
    Advice {
        when: &[Here("|"), Behind("[")],
        text: "write `P [| A |] Q` for `P |[ A ]| Q`, with the events of `A`, as `P [| {| a |} |] Q`",
    },
    Advice {
        when: &[Here("!")],
        text: "negation is written `not`, and an output stands behind a channel, as `c!x -> P`",
    },
    Advice {
        when: &[Earlier("if"), BeforeName, Here("=")],
        text: EQUALITY,
    },
    Advice {
        when: &[BeforeNumber, Here("=")],
        text: EQUALITY,
    },
    Advice {
        when: &[Here(">="), Behind("=")],
        text: "a space keeps `>` and `==` apart: `<x> == s`",
    },
    Advice {
        when: &[Here("<-")],
        text: "a space keeps `<` and `-` apart: `< -1>`",
    },
    Advice {
        when: &[NoneOpen, Here(")")],
        text: NO_BRACKET,
    },
    Advice {
        when: &[NoneOpen, Here("}")],
        text: NO_BRACKET,
    },
    Advice {
        when: &[NoneOpen, Here("|}")],
        text: NO_BRACKET,
    },
    Advice {
        when: &[Before(";"), Here("datatype")],
        text: NO_END,
    },
    Advice {
        when: &[Before(";"), Here("nametype")],
        text: NO_END,
    },
    Advice {
        when: &[Before(";"), Here("channel")],
        text: NO_END,
    },
    Advice {
        when: &[Before(";"), Here("assert")],
        text: NO_END,
    },
];

/// The rows.
pub(crate) fn rows() -> &'static [Advice] {
    ROWS
}
