//! An assertion that is told of.

use csp_term::Assertion;
use std::alloc::Allocator;

/// An assertion that is told of: its number, how it is written, and how it was asked.
#[derive(Clone, Copy, Drop)]
pub struct Question<'a, A: Allocator> {
    /// Its number, from 1 on.
    pub number: usize,
    /// The assertion as it is written.
    pub written: &'a Assertion<A>,
    /// The assertion that was answered: where names are unfolded at once, with its sides settled.
    pub asked: &'a Assertion<A>,
}
