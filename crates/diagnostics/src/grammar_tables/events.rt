//! For events without a process behind them.

use crate::conditions::Condition::{Earlier, Here, HereName, NoneOpen};
use crate::grammar_tables::texts::EVENT_ALONE;
use crate::tables::Advice;

const ROWS: &[Advice] = &[
    Advice {
        when: &[Earlier("!"), HereName],
        text: EVENT_ALONE,
    },
    Advice {
        when: &[Earlier("!"), Here("datatype")],
        text: EVENT_ALONE,
    },
    Advice {
        when: &[Earlier("!"), Here("nametype")],
        text: EVENT_ALONE,
    },
    Advice {
        when: &[Earlier("!"), Here("channel")],
        text: EVENT_ALONE,
    },
    Advice {
        when: &[Earlier("!"), Here("assert")],
        text: EVENT_ALONE,
    },
    Advice {
        when: &[Earlier("?"), HereName],
        text: EVENT_ALONE,
    },
    Advice {
        when: &[Earlier("?"), Here("datatype")],
        text: EVENT_ALONE,
    },
    Advice {
        when: &[Earlier("?"), Here("nametype")],
        text: EVENT_ALONE,
    },
    Advice {
        when: &[Earlier("?"), Here("channel")],
        text: EVENT_ALONE,
    },
    Advice {
        when: &[Earlier("?"), Here("assert")],
        text: EVENT_ALONE,
    },
    Advice {
        when: &[Earlier("."), HereName, NoneOpen],
        text: EVENT_ALONE,
    },
    Advice {
        when: &[Earlier("."), Here("datatype"), NoneOpen],
        text: EVENT_ALONE,
    },
    Advice {
        when: &[Earlier("."), Here("nametype"), NoneOpen],
        text: EVENT_ALONE,
    },
    Advice {
        when: &[Earlier("."), Here("channel"), NoneOpen],
        text: EVENT_ALONE,
    },
    Advice {
        when: &[Earlier("."), Here("assert"), NoneOpen],
        text: EVENT_ALONE,
    },
];

/// The rows.
pub(crate) fn rows() -> &'static [Advice] {
    ROWS
}
