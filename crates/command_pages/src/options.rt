//! The long options that a text tells of.

use std::alloc::{AllocError, Global};

// Whether the character may stand in an option.
fn is_of_option(c: char) -> bool {
    c.is_ascii_lowercase() || c == '-'
}

/// The words of the text that begin with two hyphens, each once.
pub(crate) fn options_of<'t>(alloc: Global, text: &'t str) -> Result<Vec<&'t str>, AllocError> {
    let mut options = Vec::new(alloc);
    for word in text.split(|c: char| !is_of_option(c)) {
        if word.starts_with("--") && word.len() > 2 && !options.contains(&word) {
            options.push(word)?;
        }
    }
    Ok(options)
}
