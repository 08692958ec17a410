//! Fields of objects.

ghost use Rattle.std.specs.Prelude.{[], ◌∷◌};
ghost use Rattle.theory_objects.specs.Fields.{number_field, text_field};
ghost use Rattle.explanation_objects.specs.Putting.{Puts};

use json::Writer;
use std::alloc::{AllocError, Allocator};

/// Puts a field that is this text.
pub(crate) fn put_text<A: Allocator>(
    name: &str,
    text: &str,
    writer: &mut Writer<A>,
) -> Result<(), AllocError>
    ensures { Puts result writer.old writer.new (text_field name.now text.now ∷ []) }
{
    writer.key(name)?;
    writer.string(text)
}

/// Puts a field that is this number.
pub(crate) fn put_number<A: Allocator>(
    name: &str,
    number: u64,
    writer: &mut Writer<A>,
) -> Result<(), AllocError>
    ensures { Puts result writer.old writer.new (number_field name.now number ∷ []) }
{
    writer.key(name)?;
    writer.u64(number)
}
