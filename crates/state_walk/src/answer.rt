//! What is answered to a line.

/// What is to be shown behind a line of input.
#[derive(Clone, Copy, Debug, PartialEq, Eq)]
pub enum Answer {
    /// The state where the walk is now.
    Shown,
    /// This text.
    Said(&'static str),
    /// Nothing: the walk has ended.
    Ended,
}
