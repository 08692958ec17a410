//! For comparisons.

use crate::conditions::Condition::Here;
use crate::tables::Advice;

const CHAINED: &str =
    "a comparison has no second one behind it: write `0 <= x and x < 3` for `0 <= x < 3`; a field with one stands in brackets, as `c!(x == 0)`";

const ROWS: &[Advice] = &[
    Advice {
        when: &[Here("==")],
        text: CHAINED,
    },
    Advice {
        when: &[Here("!=")],
        text: CHAINED,
    },
    Advice {
        when: &[Here("<")],
        text: CHAINED,
    },
    Advice {
        when: &[Here("<=")],
        text: CHAINED,
    },
    Advice {
        when: &[Here(">")],
        text: CHAINED,
    },
    Advice {
        when: &[Here(">=")],
        text: CHAINED,
    },
];

/// The rows.
pub(crate) fn rows() -> &'static [Advice] {
    ROWS
}
