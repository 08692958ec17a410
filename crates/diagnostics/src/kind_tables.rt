//! What may be meant where a name, a set or a kind is wrong, by the tokens around the place.

pub(crate) mod unknown_processes;
pub(crate) mod unknown_values;
pub(crate) mod wrong_kinds;

use crate::conditions::Condition::{Before, HereName};
use crate::tables::Advice;

/// For a name that is declared already.
pub(crate) const TWICE: &[Advice] = &[Advice {
    when: &[],
    text: "datatypes, constructors, nametypes, channels and equations share one space of names, a bound name is none of them, and a head names each parameter once: rename one of the two",
}];

/// For another number of arguments or fields than are declared.
pub(crate) const WRONG_COUNT: &[Advice] = &[
    Advice {
        when: &[Before("{"), HereName],
        text: "an event has each field of its channel: write `{| c |}` for all events of `c`",
    },
    Advice {
        when: &[],
        text: "a call has an argument for each parameter, an event a field for each set of its channel, and a constructor with fields stands in brackets with them, as `(B.0)`",
    },
];

/// For a set without a value or, for a field, without a member.
pub(crate) const BAD_SET: &[Advice] = &[Advice {
    when: &[],
    text: "a set has at most 1024 members, and that of a field has one; `head` and `tail` are of a sequence with an item, `%` of a number above zero, and numbers have 32 bits",
}];

/// For channels with too many events.
pub(crate) const TOO_MANY: &[Advice] = &[Advice {
    when: &[],
    text: "a channel has as many events as the sizes of its fields' sets multiplied: make the sets smaller",
}];
