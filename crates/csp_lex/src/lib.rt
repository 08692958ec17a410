//! The tokens of a script.
//!
//! `tokens` divides a text into its longest tokens, or says which refusal of the text comes first and
//! where. By its contract the list is exactly the text's: each token with its kind, its place in lines
//! and columns, the bytes that it stands at and the slice of the source that it is; and a refusal is
//! exactly the text's, with its place. A text has one or the other, and never both. Only where memory
//! is refused is nothing said of the text.
#![tactic(auto)]

ghost use Rattle.std.specs.Prelude.{IfOk, IfErr, length, map};
ghost use Rattle.theory_text.specs.Spans.{RiseBetween, AreInRange};
ghost use Rattle.theory_text.specs.Token.{AreTokens};
ghost use Rattle.csp_lex.specs.Places.{place_of};
ghost use Rattle.csp_lex.specs.Refusals.{IsRefusalOf};
ghost use Rattle.csp_lex.specs.Tokens.{placed_token, AreSlices};

mod classes;
mod comments;
mod cursors;
mod divisions;
mod keywords;
mod kinds;
mod marks;
mod numbers;
mod pieces;
mod places;
mod refusals;
mod signs;
mod texts;
mod words;

pub use keywords::Keyword;
pub use kinds::{Token, TokenKind, TokenList};
pub use numbers::GREATEST_NUMBER;
pub use places::Place;
pub use refusals::{Refused, TextFault};
pub use signs::Sign;
use std::alloc::Allocator;
pub use texts::LONGEST_TEXT;

/// The tokens of a text, or why it has none.
///
/// The text is read once, from its beginning to its end or to the refusal, and memory is taken for the
/// list of tokens alone. `Refused::Text` is the one refusal of the text: more than `LONGEST_TEXT` bytes go
/// first, then bytes that are not UTF-8, then the first of the others in the text. `Refused::Memory`
/// comes where the list could not grow, and says nothing of the text.
pub fn tokens<'a, A: Allocator>(alloc: A, bytes: &'a [u8]) -> Result<TokenList<'a, A>, Refused>
    ensures tokens { IfOk result (λ list. AreTokens bytes.now (map placed_token list.tokens.items)
        (place_of list.end)) }
    ensures slices { IfOk result (λ list. AreSlices bytes.now list.tokens.items) }
    ensures spans { IfOk result (λ list. RiseBetween 0 (length bytes.now)
        (map placed_token list.tokens.items)) }
    ensures numbers { IfOk result (λ list. AreInRange (map placed_token list.tokens.items)) }
    ensures refused { IfErr result (λ refused. IsRefusalOf bytes.now refused) }
{
    let text = texts::text_of(bytes)?;
    divisions::divide(alloc, text)
}
