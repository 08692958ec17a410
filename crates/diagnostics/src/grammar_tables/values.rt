//! For fields, pairs, sets and sequences.

use crate::conditions::Condition::{
    Before, BeforeName, Behind, Earlier, Here, NoneOpen, Open, Opening,
};
use crate::grammar_tables::texts::PAIRS;
use crate::tables::Advice;

const DOT: &str =
    "fields with a dot come first, as `c.1!2?x`, and an input is one name, as `c?x?y`; a constructor with its fields stands in brackets, as `m!(B.0)`";

const COMPREHENSION: &str =
    "there are no comprehensions: write the members, `diff(S, T)`, or a guard, as `[] y:S @ y != n & c!y -> P`";

const ONE_NAME: &str =
    "one name stands before `@`: write `[] x:S @ [] y:T @ P` for `[] x:S, y:T @ P`";

const ROWS: &[Advice] = &[
    Advice {
        when: &[Opening("channel"), BeforeName, Here("."), NoneOpen],
        text: "the sets of a channel's fields stand behind `:`, as `channel c : {0..1}.Bool`",
    },
    Advice {
        when: &[Before("}"), Here(".")],
        text: "fields stand in channels and constructors alone: write `datatype Pair = Two.{0..1}.{0..1}`",
    },
    Advice {
        when: &[Here(".")],
        text: DOT,
    },
    Advice {
        when: &[Here("|"), Behind(">")],
        text: "there is no `[| A |>`: let the branch that does an event of `A` go on as its right side",
    },
    Advice {
        when: &[Open("{"), Here("|")],
        text: COMPREHENSION,
    },
    Advice {
        when: &[Earlier("<"), Here("|")],
        text: COMPREHENSION,
    },
    Advice {
        when: &[Earlier("<-"), Here("|")],
        text: COMPREHENSION,
    },
    Advice {
        when: &[Earlier("."), Here("|")],
        text: COMPREHENSION,
    },
    Advice {
        when: &[Here("|")],
        text: "external choice is written `[]`, and internal choice `|~|`; there are no comprehensions",
    },
    Advice {
        when: &[Before(".."), Here("}")],
        text: "a set is finite: write its greatest number, as `{0..9}`",
    },
    Advice {
        when: &[Here("..")],
        text: "only a set has a range, as `{0..2}`: write the items of a sequence, as `<0,1,2>`",
    },
    Advice {
        when: &[Opening("channel"), Here(","), NoneOpen],
        text: "all channels of one declaration have the same fields: begin another one, as `channel c : S channel d : T`",
    },
    Advice {
        when: &[Before("}"), Here(",")],
        text: ONE_NAME,
    },
    Advice {
        when: &[Earlier(":"), BeforeName, Here(",")],
        text: ONE_NAME,
    },
    Advice {
        when: &[Earlier("="), BeforeName, Here(","), NoneOpen],
        text: "the constructors of a datatype are kept apart by `|`, as `datatype D = A | B`",
    },
    Advice {
        when: &[Here(",")],
        text: PAIRS,
    },
];

/// The rows.
pub(crate) fn rows() -> &'static [Advice] {
    ROWS
}
