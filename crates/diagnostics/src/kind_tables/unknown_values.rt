//! For a name that means nothing, by what it may stand for.

use crate::conditions::Condition::{Before, Behind, Here, HereName};
use crate::tables::Advice;

const TRUTH: &str = "the truth values are written `true` and `false`";

const NAME: &str =
    "a name is declared, or it is a parameter, an input `?x` in what stands behind it, or the name of `[] x:S @ P` in `P`";

const CHANNEL: &str =
    "a channel is declared, as `channel a`, or with the sets of its fields, as `channel c : {0..2}.Bool`";

const ROWS: &[Advice] = &[
    Advice {
        when: &[Here("Int")],
        text: "a set is finite: write the numbers, as `{0..9}`",
    },
    Advice {
        when: &[Here("Char")],
        text: "there are no characters: declare them, as `datatype Letter = X | Y`",
    },
    Advice {
        when: &[Here("Events")],
        text: "there is no `Events`: write the channels, as `{| a, b |}`",
    },
    Advice {
        when: &[Here("True")],
        text: TRUTH,
    },
    Advice {
        when: &[Here("False")],
        text: TRUTH,
    },
    Advice {
        when: &[Here("length")],
        text: "write `#s` for `length(s)`",
    },
    Advice {
        when: &[Here("empty")],
        text: "write `null(s)` of a sequence, and `card(S) == 0` of a set",
    },
    Advice {
        when: &[Before("!"), HereName],
        text: NAME,
    },
    Advice {
        when: &[Before("."), HereName],
        text: NAME,
    },
    Advice {
        when: &[Before(":"), HereName],
        text: NAME,
    },
    Advice {
        when: &[HereName, Behind("->")],
        text: CHANNEL,
    },
    Advice {
        when: &[HereName, Behind("!")],
        text: CHANNEL,
    },
    Advice {
        when: &[HereName, Behind("?")],
        text: CHANNEL,
    },
    Advice {
        when: &[],
        text: NAME,
    },
];

/// The rows.
pub(crate) fn rows() -> &'static [Advice] {
    ROWS
}
