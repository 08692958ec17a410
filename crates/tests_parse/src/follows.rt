//! Which tokens may stand behind a beginning of a script, and which are refused there.

use crate::texts::{read, repeated};
use std::alloc::{AllocError, Global};

/// A beginning of a script, and the lists of the tokens that may stand behind it.
///
/// Between the tokens of a beginning, and round each token of a list, stands one space.
pub(crate) type Beginning = (&'static str, &'static [&'static str]);

/// All keywords and signs, a number and a name.
const TOKENS: &[&str] = &[
    "datatype", "nametype", "channel", "assert", "if", "then", "else", "and", "or", "not", "true",
    "false", "Bool", "STOP", "SKIP", "head", "tail", "null", "elem", "member", "union", "inter",
    "diff", "card", "->", "<-", "[]", "|~|", "|||", "||", "[|", "|]", "[[", "]]", "{|", "|}",
    "[T=", "[F=", "/\\", "[>", "\\", ";", "&", "@", "==", "!=", "<=", ">=", "<", ">", "+", "-",
    "*", "%", "^", "#", "!", "?", "..", ".", ":", ",", "=", "|", "(", ")", "[", "]", "{", "}", "1",
    "x",
];

/// The tokens that are refused as mixed operators.
const MIXED: &str = " [] |~| ; ||| /\\ [> [ [| [[ \\ ";

/// What a declaration begins with.
pub(crate) const DECLARATION: &str = " datatype nametype channel assert x ";

/// What an atom begins with.
pub(crate) const ATOM: &str =
    " 1 x true false Bool - # ( < { head tail null card elem member union inter diff ";

/// What an expression begins with.
pub(crate) const EXPRESSION: &str =
    " 1 x true false Bool - # ( < { head tail null card elem member union inter diff not ";

/// What an operand begins with: that of an expression, which may be a guard, and that of a base.
pub(crate) const OPERAND: &str =
    " 1 x true false Bool - # ( < { head tail null card elem member union inter diff not STOP SKIP ";

/// What else a process begins with.
pub(crate) const CONTROL: &str = " if [] |~| ||| ";

pub(crate) const EVENT_SET: &str = " { {| union inter diff ";

/// What goes on with a sum.
pub(crate) const SUM_OPERATOR: &str = " * % + - ^ ";

/// What goes on with a comparison.
pub(crate) const OPERATOR: &str = " * % + - ^ and or ";

/// What goes on with an expression that is no comparison yet.
pub(crate) const ANY_OPERATOR: &str = " * % + - ^ and or == != < <= > >= ";

/// What goes on with a process behind an operand.
pub(crate) const INFIX: &str = " [] |~| ; ||| /\\ [> [| [ ";

/// What stands behind the first side of an assertion.
pub(crate) const ASKED: &str = " [T= [F= : ";

/// What goes on with a process behind a base that is no operand of another.
pub(crate) const UNARY: &str = " [[ \\ ";

/// What goes on with a name that begins an operand.
pub(crate) const NAMED: &str = " ( . ! ? -> & ";

/// A token of the table that does not go on with the beginning as it should, if there is one.
pub(crate) fn first_wrong(
    alloc: Global,
    beginning: &Beginning,
) -> Result<Option<&'static str>, AllocError> {
    for token in TOKENS {
        if !goes_on(alloc, beginning, token)? {
            return Ok(Some(*token));
        }
    }
    Ok(None)
}

/// Whether a token behind a beginning is read or refused as the beginning's lists say.
fn goes_on(alloc: Global, beginning: &Beginning, token: &str) -> Result<bool, AllocError> {
    let spaced = repeated(alloc, " ", token, 1, " ")?;
    let text = repeated(alloc, beginning.0, &spaced, 1, "")?;
    let answer = read(alloc, &text)?;
    if is_in(beginning.1, &spaced) {
        return Ok(answer.as_str().starts_with("S03") || answer.as_str().ends_with("; "));
    }
    let number = if MIXED.contains(spaced.as_str()) {
        "S04"
    } else {
        "S01"
    };
    let column = beginning.0.len().saturating_add(2);
    let expected = format!(in alloc; "{number} at 1:{column}")?;
    Ok(answer.as_str() == expected.as_str())
}

/// Whether one of the lists has a token.
fn is_in(lists: &[&str], spaced: &str) -> bool {
    for list in lists {
        if list.contains(spaced) {
            return true;
        }
    }
    false
}
