//! Fixed texts and numbers.

ghost use Rattle.std.specs.Prelude.{◌≡◌, decimal};
ghost use Rattle.theory_explanation.specs.Counting.{number_text, plural_text};
ghost use Rattle.csp_print.specs.Writing.{Writes};

use std::alloc::{AllocError, Allocator};
use std::fmt::Write;

/// The text, behind the string.
pub fn push_mark<A: Allocator>(mark: &str, text: &mut String<A>) -> Result<(), AllocError>
    ensures { Writes result text.old text.new mark.now }
{
    text.push_str(mark)
}

/// The number, behind the string.
pub fn push_number<A: Allocator>(number: usize, text: &mut String<A>) -> Result<(), AllocError>
    ensures { Writes result text.old text.new (decimal number) }
{
    write!(text, "{number}")
}

/// So many of what the word stands for, behind the string.
pub fn push_amount<A: Allocator>(
    number: usize,
    word: &str,
    text: &mut String<A>,
) -> Result<(), AllocError>
    ensures { Writes result text.old text.new (number_text number word.now) }
{
    push_number(number, text)?;
    push_mark(" ", text)?;
    push_mark(word, text)?;
    push_mark(plural(number), text)
}

// What stands behind the word for more than one, or for none.
fn plural(number: usize) -> &'static str
    ensures { result.now ≡ plural_text number }
{
    if number == 1 { "" } else { "s" }
}
