//! A case, and the cases of a table.

use std::alloc::{AllocError, Global};

/// A run, and what it is to give.
#[derive(Clone, Copy)]
pub(crate) struct Case<'t> {
    /// The words of the command line, with the name of the program.
    pub(crate) words: &'t str,
    /// The text of the file `script`.
    pub(crate) text: &'t str,
    /// The status, or `fine`.
    pub(crate) status: &'t str,
    /// What the run gives, but for line ends behind it.
    pub(crate) told: &'t str,
}

/// The first line, and what stands behind it.
fn line_and_rest(text: &str) -> (&str, &str) {
    text.split_once('\n').unwrap_or((text, ""))
}

/// The cases of a table, in their order.
pub(crate) fn cases_of(alloc: Global, table: &str) -> Result<Vec<Case<'_>>, AllocError> {
    let mut cases = Vec::new(alloc);
    let mut asked: Option<(&str, &str)> = None;
    for part in table.split("\n@@ ").skip(1) {
        let (line, rest) = line_and_rest(part);
        match asked {
            None => asked = Some((line, rest)),
            Some((words, text)) => {
                cases.push(Case {
                    words,
                    text,
                    status: line,
                    told: rest.trim_end_matches('\n'),
                })?;
                asked = None;
            }
        }
    }
    Ok(cases)
}
