//! Tokens and their kinds.

use crate::keywords::Keyword;
use crate::places::Place;
use crate::signs::Sign;
use std::alloc::Allocator;

/// What a token is. A name is known by its text.
#[derive(Clone, Copy, PartialEq, Eq)]
pub enum TokenKind {
    /// A keyword.
    Keyword(Keyword),
    /// A sign.
    Sign(Sign),
    /// A name.
    Name,
    /// A number, of at most `GREATEST_NUMBER`.
    Number(u32),
}

/// A token of a text, with the slice of the text that it is.
#[derive(Clone, Copy)]
pub struct Token<'a> {
    /// What it is.
    pub kind: TokenKind,
    /// The slice of the text.
    pub text: &'a str,
    /// The place of its first character.
    pub place: Place,
    /// The number of bytes before it.
    pub from: usize,
    /// The number of bytes before what follows it.
    pub to: usize,
}

/// The tokens of a text, in order.
#[derive(Drop)]
pub struct TokenList<'a, A: Allocator> {
    /// The tokens, in the order of the text.
    pub tokens: Vec<Token<'a>, A>,
    /// The place behind the text's last character.
    pub end: Place,
}
