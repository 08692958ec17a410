//! For a declaration that nests too deep.

use crate::tables::Advice;

const ROWS: &[Advice] = &[Advice {
    when: &[],
    text: "make a part of it an equation of its own, and call that",
}];

/// The rows.
pub(crate) fn rows() -> &'static [Advice] {
    ROWS
}
