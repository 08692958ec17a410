//! Long texts, cut.

ghost use Rattle.std.specs.Prelude.{◌≡◌, length, take, IfOk};
ghost use Rattle.std.specs.String.{string_bytes};
ghost use Rattle.std.specs.Str.{chars, encode_utf8_all};
ghost use Rattle.theory_explanation.specs.Cutting.{cut, cut_after};
ghost use Rattle.csp_print.specs.Writing.{Writes};
ghost use Rattle.counterexample.specs.Widths.{width_of};

use crate::marks::{push_mark, push_number};
use std::alloc::{AllocError, Allocator};

/// How many characters of a text are told.
#[derive(Clone, Copy, Debug, PartialEq, Eq)]
pub enum Width {
    /// All of them.
    Whole,
    /// So many, and behind them how many are left out.
    UpTo(usize),
}

/// As much of the text as is told, behind the other.
pub(crate) fn push_cut<A: Allocator>(
    alloc: A,
    width: Width,
    whole: &str,
    text: &mut String<A>,
) -> Result<(), AllocError>
    ensures { Writes result text.old text.new (cut (width_of width) whole.now) }
{
    match width {
        Width::Whole => push_mark(whole, text),
        Width::UpTo(most) => push_beginning(alloc, most, whole, text),
    }
}

/// So many characters of the text, and how many are left out, if any are.
pub(crate) fn push_beginning<A: Allocator>(
    alloc: A,
    most: usize,
    whole: &str,
    text: &mut String<A>,
) -> Result<(), AllocError>
    ensures { Writes result text.old text.new (cut_after most whole.now) }
{
    let count = character_count(whole);
    if count <= most {
        return push_mark(whole, text);
    }
    let beginning = beginning_of(alloc, most, whole)?;
    push_mark(beginning.as_str(), text)?;
    push_mark(" .. ", text)?;
    push_number(count - most, text)?;
    push_mark(" more characters", text)
}

fn character_count(text: &str) -> usize
    ensures { result ≡ length (chars text.now) }
{
    text.chars().count()
}

// So many characters of the text.
fn beginning_of<A: Allocator>(alloc: A, most: usize, text: &str) -> Result<String<A>, AllocError>
    ensures { IfOk result (λ beginning. string_bytes beginning
        ≡ encode_utf8_all (take most (chars text.now))) }
{
    text.chars().take(most).collect(alloc)
}
