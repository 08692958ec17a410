//! Values at the end of bytes.

ghost use Rattle.std.specs.Prelude.{◌≡◌, ◌++◌, OnOk};
ghost use Rattle.theory_syntax.specs.Value.{Constructor, to_values};
ghost use Rattle.theory_spelling.specs.Spelling.{list_spelling, value_spelling};
ghost use Rattle.theory_spelling.specs.Packable.{IsPackableList, IsPackableValue};
ghost use Rattle.theory_spelling.specs.Ranges.{IsInRangeValue};
ghost use Rattle.std.specs.List.{AllByRecursion};
ghost use Rattle.csp_value.specs.Value.{value_of, values_of};

use crate::numbers::{push_length, push_number, push_tagged, push_truth, push_whole};
use csp_value::{ConId, Memory, Value};
use std::alloc::Allocator;

/// Puts the spelling of the value at the end.
#[cycle(push_value)]
pub(crate) fn push_value<A: Allocator>(
    value: &Value<A>,
    bytes: &mut Vec<u8, A>,
) -> Result<(), Memory>
    requires { IsPackableValue (value_of value.now) }
    ensures spelled { OnOk result (bytes.new.items ≡ bytes.old.items
        ++ value_spelling (value_of value.now)) }
    ensures range { OnOk result (IsInRangeValue (value_of value.now)) }
{
    match value {
        Value::Int(number) => {
            bytes.push(0x60)?;
            push_whole(*number, bytes)
        }
        Value::Bool(truth) => {
            bytes.push(0x61)?;
            push_truth(*truth, bytes)
        }
        Value::Con(constructor, fields) => push_constructor(*constructor, fields, bytes),
        Value::Seq(items) => {
            bytes.push(0x63)?;
            push_values(items, bytes)
        }
        Value::Set(set) => {
            bytes.push(0x64)?;
            push_values(set.members(), bytes)
        }
    }
}

/// Puts the spelling of the constructor with the values of its fields at the end. One without fields has a tag of its
/// own, and no list.
#[cycle(push_value)]
fn push_constructor<A: Allocator>(
    constructor: ConId,
    fields: &[Value<A>],
    bytes: &mut Vec<u8, A>,
) -> Result<(), Memory>
    requires { IsPackableList IsPackableValue (values_of fields.now) }
    ensures spelled { OnOk result (bytes.new.items ≡ bytes.old.items
        ++ value_spelling (Constructor constructor.0 (to_values (values_of fields.now)))) }
    ensures range { OnOk result (IsInRangeValue
        (Constructor constructor.0 (to_values (values_of fields.now)))) }
{
    if fields.is_empty() {
        return push_tagged(0x62, constructor.0, bytes);
    }
    bytes.push(0x65)?;
    push_number(constructor.0, bytes)?;
    push_values(fields, bytes)
}

/// Puts the length of the list and the spellings of its values at the end.
#[cycle(push_value)]
fn push_values<A: Allocator>(values: &[Value<A>], bytes: &mut Vec<u8, A>) -> Result<(), Memory>
    requires { IsPackableList IsPackableValue (values_of values.now) }
    ensures spelled { OnOk result (bytes.new.items ≡ bytes.old.items
        ++ list_spelling value_spelling (values_of values.now)) }
    ensures range { OnOk result (AllByRecursion IsInRangeValue (values_of values.now)) }
{
    push_length(values.len(), bytes)?;
    for value in values {
        push_value(value, bytes)?;
    }
    Ok(())
}
