//! Texts that are put together of pieces.

use std::alloc::{AllocError, Global};

/// A text in pieces, each with how often it is repeated.
pub(crate) type Pieces = &'static [(&'static str, usize)];

/// Adds a text as often as `times` says.
pub(crate) fn repeat(whole: &mut String, text: &str, times: usize) -> Result<(), AllocError> {
    for _ in 0..times {
        whole.push_str(text)?;
    }
    Ok(())
}

/// The text of the pieces.
pub(crate) fn put_together(alloc: Global, pieces: Pieces) -> Result<String, AllocError> {
    let mut whole = String::new(alloc);
    for (text, times) in pieces {
        repeat(&mut whole, text, *times)?;
    }
    Ok(whole)
}
