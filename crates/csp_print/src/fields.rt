//! The texts of the fields of prefixes.

ghost use Rattle.std.specs.Prelude.{◌≡◌, ◌||◌, codes, false};
ghost use Rattle.csp_term.specs.Field.{field_of, fields_of};
ghost use Rattle.theory_notation.specs.Processes as notation;
ghost use Rattle.theory_notation.specs.Processes.{field_text, fields_text};
ghost use Rattle.csp_print.specs.Names.{names_of};
ghost use Rattle.csp_print.specs.Writing.{Writes};

use crate::expressions::push_operand;
use crate::marks::push_mark;
use crate::names::Names;
use crate::ranks::ATOM;
use crate::told::push_told;
use csp_term::Field;
use std::alloc::{AllocError, Allocator};

/// The fields, one behind the other.
pub(crate) fn push_fields<A: Allocator + Copy>(
    names: &Names<'_, A>,
    fields: &[Field<A>],
    text: &mut String<A>,
) -> Result<(), AllocError>
    ensures { Writes result text.old text.new
        (fields_text (names_of names.now) false (fields_of fields.now)) }
{
    let mut behind_input = false;
    for field in fields {
        push_field(names, behind_input, field, text)?;
        behind_input = has_input(behind_input, field);
    }
    Ok(())
}

// Whether an input stands before the next field.
fn has_input<A: Allocator>(behind_input: bool, field: &Field<A>) -> bool
    ensures { result ≡ (behind_input || notation.is_input (field_of field.now)) }
{
    behind_input || is_input(field)
}

fn is_input<A: Allocator>(field: &Field<A>) -> bool
    ensures { result ≡ notation.is_input (field_of field.now) }
{
    match field {
        Field::Given(_) => false,
        Field::Input(_) | Field::InputFrom(_, _) => true,
    }
}

// A given field has a dot, which may not stand behind an input.
fn given_mark(behind_input: bool) -> &'static str
    ensures { result.now ≡ notation.given_mark behind_input }
{
    if behind_input { "!" } else { "." }
}

// A field takes an atom. The set of an input stays as it is written.
fn push_field<A: Allocator + Copy>(
    names: &Names<'_, A>,
    behind_input: bool,
    field: &Field<A>,
    text: &mut String<A>,
) -> Result<(), AllocError>
    ensures { Writes result text.old text.new
        (field_text (names_of names.now) behind_input (field_of field.now)) }
{
    match field {
        Field::Given(value) => {
            push_mark(given_mark(behind_input), text)?;
            push_told(names, ATOM, value, text)
        }
        Field::Input(name) => {
            push_mark("?", text)?;
            names.push_bound(*name, text)
        }
        Field::InputFrom(name, set) => {
            push_mark("?", text)?;
            names.push_bound(*name, text)?;
            push_mark(":", text)?;
            push_operand(names, ATOM, set, text)
        }
    }
}
