//! Spaces that keep tokens apart.

ghost use Rattle.std.specs.Prelude.{codes};
ghost use Rattle.theory_notation.specs.Marks.{gap};
ghost use Rattle.csp_print.specs.Writing.{Writes};

use std::alloc::{AllocError, Allocator};

/// The mark.
pub(crate) fn push_mark<A: Allocator>(mark: &str, text: &mut String<A>) -> Result<(), AllocError>
    ensures { Writes result text.old text.new mark.now }
{
    text.push_str(mark)
}

/// A space, where it is needed.
pub(crate) fn push_gap<A: Allocator>(
    is_needed: bool,
    text: &mut String<A>,
) -> Result<(), AllocError>
    ensures { Writes result text.old text.new (gap is_needed) }
{
    if is_needed {
        text.push_str(" ")
    } else {
        Ok(())
    }
}
