//! Fields of prefixes at the end of bytes.

ghost use Rattle.std.specs.Prelude.{◌≡◌, ◌++◌, OnOk};
ghost use Rattle.theory_spelling.specs.Spelling.{field_spelling, list_spelling};
ghost use Rattle.theory_spelling.specs.Packable.{IsPackableField, IsPackableList};
ghost use Rattle.theory_spelling.specs.Ranges.{IsInRangeField};
ghost use Rattle.std.specs.List.{AllByRecursion};
ghost use Rattle.csp_term.specs.Field.{field_of, fields_of};

use crate::expressions::push_expression;
use crate::numbers::{push_length, push_number, push_tagged};
use csp_term::{Field, Memory};
use std::alloc::Allocator;

/// Puts the spelling of the field at the end.
pub(crate) fn push_field<A: Allocator>(
    field: &Field<A>,
    bytes: &mut Vec<u8, A>,
) -> Result<(), Memory>
    requires { IsPackableField (field_of field.now) }
    ensures spelled { OnOk result (bytes.new.items ≡ bytes.old.items
        ++ field_spelling (field_of field.now)) }
    ensures range { OnOk result (IsInRangeField (field_of field.now)) }
{
    match field {
        Field::Given(value) => {
            bytes.push(0x20)?;
            push_expression(value, bytes)
        }
        Field::Input(name) => push_tagged(0x21, name.0, bytes),
        Field::InputFrom(name, set) => {
            bytes.push(0x22)?;
            push_number(name.0, bytes)?;
            push_expression(set, bytes)
        }
    }
}

/// Puts the length of the list and the spellings of its fields at the end.
pub(crate) fn push_fields<A: Allocator>(
    fields: &[Field<A>],
    bytes: &mut Vec<u8, A>,
) -> Result<(), Memory>
    requires { IsPackableList IsPackableField (fields_of fields.now) }
    ensures spelled { OnOk result (bytes.new.items ≡ bytes.old.items
        ++ list_spelling field_spelling (fields_of fields.now)) }
    ensures range { OnOk result (AllByRecursion IsInRangeField (fields_of fields.now)) }
{
    push_length(fields.len(), bytes)?;
    for field in fields {
        push_field(field, bytes)?;
    }
    Ok(())
}
