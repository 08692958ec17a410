//! A script with the lines of a walk through it.

// What stands between the two.
const BEHIND_SCRIPT: &str = "\n@>\n";

/// The script, and the lines behind it, if there are any.
pub(crate) fn script_and_lines(text: &str) -> (&str, &str) {
    text.split_once(BEHIND_SCRIPT).unwrap_or((text, ""))
}
