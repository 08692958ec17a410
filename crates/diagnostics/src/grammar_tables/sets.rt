//! For sets of events, types and arrows.

use crate::conditions::Condition::{
    Before, BeforeName, Behind, Declaring, Here, HereName, Open, Outside,
};
use crate::grammar_tables::texts::NAMED_SET;
use crate::tables::Advice;

const ALPHABET: &str =
    "behind `[` stands a set of events, as in `P [{| a |} || {| b |}] Q`: a set has no name, and for `P [c <-> d] Q` rename both channels to a third, share it and hide it";

const ALPHABETS: &str =
    "write the parts out, each with its events: `(P(0) [A || B] P(1)) [C || D] P(2)`, with the events of `A`, as `{a.0, b}`, in place of its name, and in `C` those of `A` and of `B`";

const EVENTS: &str = "a set of events has no name: write it where it is used, as `{| c, d |}`";

const ROWS: &[Advice] = &[
    Advice {
        when: &[Before("["), HereName],
        text: ALPHABET,
    },
    Advice {
        when: &[Before("["), Here("+")],
        text: "there is no `[+ A +]`, and nothing stands in its place",
    },
    Advice {
        when: &[Before("[|"), HereName],
        text: EVENTS,
    },
    Advice {
        when: &[Before("||"), HereName],
        text: EVENTS,
    },
    Advice {
        when: &[Before("\\"), HereName],
        text: EVENTS,
    },
    Advice {
        when: &[Before("="), Here("{|")],
        text: EVENTS,
    },
    Advice {
        when: &[Here(":"), Behind(":")],
        text: "the types of a name are not written: leave the line out",
    },
    Advice {
        when: &[Before("="), Here("||")],
        text: ALPHABETS,
    },
    Advice {
        when: &[Before("("), Here("||")],
        text: ALPHABETS,
    },
    Advice {
        when: &[Before("->"), Here("||")],
        text: ALPHABETS,
    },
    Advice {
        when: &[Before("@"), Here("||")],
        text: ALPHABETS,
    },
    Advice {
        when: &[Declaring("nametype"), Open("{"), BeforeName, Here(".")],
        text: "a constructor with its fields stands in brackets, as `{(B.0)}`",
    },
    Advice {
        when: &[Open("{"), Outside("="), Here(".")],
        text: NAMED_SET,
    },
    Advice {
        when: &[Here("="), Behind(">")],
        text: "the arrow is written `->`",
    },
];

/// The rows.
pub(crate) fn rows() -> &'static [Advice] {
    ROWS
}
