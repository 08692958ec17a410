//! Places, as fields.

ghost use Rattle.theory_objects.specs.Answers.{place_fields};
ghost use Rattle.csp_lex.specs.Places.{place_of};
ghost use Rattle.explanation_objects.specs.Putting.{Puts};

use crate::fields::put_number;
use csp_lex::Place;
use json::Writer;
use std::alloc::{AllocError, Allocator};

/// Puts the line and the column of the place.
pub(crate) fn put_place<A: Allocator>(
    place: Place,
    writer: &mut Writer<A>,
) -> Result<(), AllocError>
    ensures { Puts result writer.old writer.new (place_fields (place_of place)) }
{
    put_number("line", place.line as u64, writer)?;
    put_number("column", place.column as u64, writer)
}
