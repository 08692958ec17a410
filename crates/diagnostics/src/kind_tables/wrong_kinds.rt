//! For what is of another kind than its place asks for.

use crate::conditions::Condition::{Before, Behind, Earlier, Here, HereName, HereNumber};
use crate::tables::Advice;

const CHANNEL: &str =
    "here stands a channel: an event is no value, and no parameter, input or replicated name stands for one";

const KINDS: &str =
    "numbers, truth values, each datatype, sequences and sets are kinds of their own: look at what each parameter, field and operator is given here and above; `<` and `<=` are of numbers";

const MEMBER: &str =
    "a member of this set is a value, and no event or process: write the branches, as `(a -> P) [] (b -> P)`, or declare the values, as `datatype D = A | B`";

const FIELD_SET: &str = "a field is given the set of its values, as `channel c : {0..5}`";

const RENAMING: &str = "both sides of a renaming are channels, whose fields have the same values";

const ROWS: &[Advice] = &[
    Advice {
        when: &[Here("assert")],
        text: KINDS,
    },
    Advice {
        when: &[HereName, Behind("=")],
        text: KINDS,
    },
    Advice {
        when: &[HereName, Behind("(")],
        text: KINDS,
    },
    Advice {
        when: &[Here("{")],
        text: KINDS,
    },
    Advice {
        when: &[HereName, Behind("->")],
        text: CHANNEL,
    },
    Advice {
        when: &[HereName, Behind("!")],
        text: CHANNEL,
    },
    Advice {
        when: &[HereName, Behind("?")],
        text: CHANNEL,
    },
    Advice {
        when: &[Before("<-")],
        text: RENAMING,
    },
    Advice {
        when: &[HereName, Behind("<-")],
        text: RENAMING,
    },
    Advice {
        when: &[Earlier(":"), Before("{"), HereName],
        text: MEMBER,
    },
    Advice {
        when: &[Before(":"), HereNumber],
        text: FIELD_SET,
    },
    Advice {
        when: &[Before("."), HereNumber],
        text: FIELD_SET,
    },
    Advice {
        when: &[Before("->"), HereName],
        text: "behind `->` stands a process: an event is none, as the `b` of `a -> b -> STOP`, and a parameter stands for a value",
    },
    Advice {
        when: &[],
        text: "a process by its name is an equation, an event begins with a channel, and a value is a bound name, a constructor, a datatype or a nametype; what begins here has parts of kinds that do not fit",
    },
];

/// The rows.
pub(crate) fn rows() -> &'static [Advice] {
    ROWS
}
