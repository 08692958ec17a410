//! Fields of prefixes at the front of bytes.

ghost use Rattle.theory_spelling.specs.Reading.{field_at, field_behind, items_at, list_at};
ghost use Rattle.csp_term.specs.Field.{field_of, fields_of};
ghost use Rattle.csp_spell.specs.Gives.{Gives};

use crate::fault::UnpackFault;
use crate::read_expressions::read_expression;
use crate::read_numbers::{read_byte, read_number};
use csp_term::{Field, Name};
use std::alloc::Allocator;

/// The field at the front, and the bytes behind it. Its parts nest at most so deep.
#[tactic(auto, unfolding(theory_spelling::specs::Reading::field_at))]
fn read_field<A: Allocator + Copy>(
    alloc: A,
    depth: usize,
    bytes: &[u8],
) -> Result<(Field<A>, &[u8]), UnpackFault>
    ensures { Gives (λ x. (field_of x.0, x.1.now)) result (field_at depth bytes.now) }
{
    let (tag, rest) = read_byte(bytes)?;
    read_tagged(alloc, depth, tag, rest)
}

/// The field behind its tag, and the bytes behind it. Its parts nest at most so deep.
#[tactic(auto, unfolding(theory_spelling::specs::Reading::field_behind))]
fn read_tagged<A: Allocator + Copy>(
    alloc: A,
    depth: usize,
    tag: u8,
    bytes: &[u8],
) -> Result<(Field<A>, &[u8]), UnpackFault>
    ensures { Gives (λ x. (field_of x.0, x.1.now)) result (field_behind depth tag bytes.now) }
{
    match tag {
        0x20 => {
            let (value, rest) = read_expression(alloc, depth, bytes)?;
            Ok((Field::Given(value), rest))
        }
        0x21 => {
            let (name, rest) = read_number(bytes)?;
            Ok((Field::Input(Name(name)), rest))
        }
        0x22 => {
            let (name, rest) = read_number(bytes)?;
            let (set, rest) = read_expression(alloc, depth, rest)?;
            Ok((Field::InputFrom(Name(name), set), rest))
        }
        _ => Err(UnpackFault::NotATerm),
    }
}

/// The list of fields at the front, and the bytes behind it.
#[tactic(auto, unfolding(theory_spelling::specs::Reading::list_at))]
pub(crate) fn read_fields<A: Allocator + Copy>(
    alloc: A,
    depth: usize,
    bytes: &[u8],
) -> Result<(Vec<Field<A>, A>, &[u8]), UnpackFault>
    ensures { Gives (λ x. (fields_of x.0.items, x.1.now)) result
        (list_at (field_at depth) bytes.now) }
{
    let (count, rest) = read_number(bytes)?;
    read_each_field(alloc, depth, count, rest)
}

/// So many fields at the front, and the bytes behind them. The list takes room as they are read.
fn read_each_field<A: Allocator + Copy>(
    alloc: A,
    depth: usize,
    count: u32,
    bytes: &[u8],
) -> Result<(Vec<Field<A>, A>, &[u8]), UnpackFault>
    ensures { Gives (λ x. (fields_of x.0.items, x.1.now)) result
        (items_at (field_at depth) count bytes.now) }
{
    let mut fields = Vec::new(alloc);
    let mut rest = bytes;
    for _ in 0..count {
        let (field, after) = read_field(alloc, depth, rest)?;
        fields.push(field)?;
        rest = after;
    }
    Ok((fields, rest))
}
