//! The text of values.

ghost use Rattle.std.specs.Prelude.{◌≡◌, codes};
ghost use Rattle.theory_syntax.specs.Value.{Constructor, to_values};
ghost use Rattle.csp_value.specs.Value.{value_of, values_of};
ghost use Rattle.theory_notation.specs.Values as notation;
ghost use Rattle.theory_notation.specs.Values.{integer_text, value_text, values_behind, values_text};
ghost use Rattle.csp_print.specs.Names.{names_of};
ghost use Rattle.csp_print.specs.Writing.{Writes};

use crate::marks::{push_gap, push_mark};
use crate::names::Names;
use csp_value::{ConId, Value};
use std::alloc::{AllocError, Allocator};
use std::fmt::Write;

/// The value.
#[cycle(value)]
pub fn push_value<A: Allocator>(
    names: &Names<'_, A>,
    value: &Value<A>,
    text: &mut String<A>,
) -> Result<(), AllocError>
    ensures { Writes result text.old text.new
        (value_text (names_of names.now) (value_of value.now)) }
{
    match value {
        Value::Int(number) => push_integer(*number, text),
        Value::Bool(true) => text.push_str("true"),
        Value::Bool(false) => text.push_str("false"),
        Value::Con(constructor, fields) => push_constructor(names, *constructor, fields, text),
        Value::Seq(items) => {
            push_mark("<", text)?;
            push_values(names, items, text)?;
            push_mark(">", text)
        }
        Value::Set(set) => {
            push_mark("{", text)?;
            push_values(names, set.members(), text)?;
            push_mark("}", text)
        }
    }
}

/// Whether the text of the value begins with `-`.
pub(crate) fn begins_with_minus<A: Allocator>(value: &Value<A>) -> bool
    ensures { result ≡ notation.begins_with_minus (value_of value.now) }
{
    match value {
        Value::Int(number) => *number < 0 && *number != i32::MIN,
        Value::Bool(_) | Value::Con(_, _) | Value::Seq(_) | Value::Set(_) => false,
    }
}

// The least number cannot be written with one sign.
fn push_integer<A: Allocator>(number: i32, text: &mut String<A>) -> Result<(), AllocError>
    ensures { Writes result text.old text.new (integer_text number) }
{
    if number == i32::MIN {
        text.push_str("(-2147483647 - 1)")
    } else {
        write!(text, "{number}")
    }
}

// A constructor with fields stands in `(` and `)`, with each field behind a `.`.
#[cycle(value)]
fn push_constructor<A: Allocator>(
    names: &Names<'_, A>,
    constructor: ConId,
    fields: &[Value<A>],
    text: &mut String<A>,
) -> Result<(), AllocError>
    ensures { Writes result text.old text.new
        (value_text (names_of names.now)
        (Constructor constructor.0 (to_values (values_of fields.now)))) }
{
    if fields.is_empty() {
        return names.push_constructor(constructor, text);
    }
    push_mark("(", text)?;
    names.push_constructor(constructor, text)?;
    push_values_behind(names, ".", fields, text)?;
    push_mark(")", text)
}

// The values with `,` between, behind `<` or `{`.
#[cycle(value)]
fn push_values<A: Allocator>(
    names: &Names<'_, A>,
    values: &[Value<A>],
    text: &mut String<A>,
) -> Result<(), AllocError>
    ensures { Writes result text.old text.new
        (values_text (names_of names.now) (to_values (values_of values.now))) }
{
    match values.split_first() {
        Some((first, others)) => {
            push_gap(begins_with_minus(first), text)?;
            push_value(names, first, text)?;
            push_values_behind(names, ",", others, text)
        }
        None => Ok(()),
    }
}

// The values with the mark before each.
#[cycle(value)]
fn push_values_behind<A: Allocator>(
    names: &Names<'_, A>,
    mark: &str,
    values: &[Value<A>],
    text: &mut String<A>,
) -> Result<(), AllocError>
    ensures { Writes result text.old text.new
        (values_behind (names_of names.now) mark.now (to_values (values_of values.now))) }
{
    for value in values {
        push_mark(mark, text)?;
        push_value(names, value, text)?;
    }
    Ok(())
}
