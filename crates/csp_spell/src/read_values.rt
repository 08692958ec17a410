//! Values at the front of bytes.

ghost use Rattle.theory_spelling.specs.Reading.{constructor_at, found_as, items_at, list_at, members_at, value_at, value_behind};
ghost use Rattle.theory_syntax.specs.Value.{Set};
ghost use Rattle.csp_value.specs.Value.{value_of, values_of};
ghost use Rattle.csp_spell.specs.Gives.{Gives};

use crate::fault::UnpackFault;
use crate::read_numbers::{read_byte, read_number, read_truth, read_whole};
use csp_value::{ConId, SetOf, Value, is_rising};
use std::alloc::Allocator;

/// The value at the front, and the bytes behind it. It nests at most so deep.
#[cycle(read_value)]
#[tactic(auto, unfolding(theory_spelling::specs::Reading::value_at))]
pub(crate) fn read_value<A: Allocator + Copy>(
    alloc: A,
    depth: usize,
    bytes: &[u8],
) -> Result<(Value<A>, &[u8]), UnpackFault>
    ensures { Gives (λ x. (value_of x.0, x.1.now)) result (value_at depth bytes.now) }
{
    if depth == 0 {
        return Err(UnpackFault::NotATerm);
    }
    let (tag, rest) = read_byte(bytes)?;
    read_tagged(alloc, depth - 1, tag, rest)
}

/// The value behind its tag, and the bytes behind it. Its parts nest at most so deep.
#[cycle(read_value)]
#[tactic(auto, unfolding(theory_spelling::specs::Reading::value_behind, theory_spelling::specs::Reading::values_at))]
fn read_tagged<A: Allocator + Copy>(
    alloc: A,
    depth: usize,
    tag: u8,
    bytes: &[u8],
) -> Result<(Value<A>, &[u8]), UnpackFault>
    ensures { Gives (λ x. (value_of x.0, x.1.now)) result
        (value_behind (value_at depth) tag bytes.now) }
{
    match tag {
        0x60 => {
            let (number, rest) = read_whole(bytes)?;
            Ok((Value::Int(number), rest))
        }
        0x61 => {
            let (truth, rest) = read_truth(bytes)?;
            Ok((Value::Bool(truth), rest))
        }
        0x62 => {
            let (constructor, rest) = read_number(bytes)?;
            Ok((Value::Con(ConId(constructor), Vec::new(alloc)), rest))
        }
        0x63 => {
            let (items, rest) = read_values(alloc, depth, bytes)?;
            Ok((Value::Seq(items), rest))
        }
        0x64 => read_set(alloc, depth, bytes),
        0x65 => read_constructor(alloc, depth, bytes),
        _ => Err(UnpackFault::NotATerm),
    }
}

/// The set of the members at the front, which rise, and the bytes behind it.
#[cycle(read_value)]
fn read_set<A: Allocator + Copy>(
    alloc: A,
    depth: usize,
    bytes: &[u8],
) -> Result<(Value<A>, &[u8]), UnpackFault>
    ensures { Gives (λ x. (value_of x.0, x.1.now)) result
        (found_as Set (members_at (value_at depth) bytes.now)) }
{
    let (members, rest) = read_values(alloc, depth, bytes)?;
    if is_rising(&members) {
        Ok((Value::Set(SetOf::from_values(members)), rest))
    } else {
        Err(UnpackFault::NotATerm)
    }
}

/// The constructor with the values of its fields, of which there is one at least, and the bytes behind it.
#[cycle(read_value)]
fn read_constructor<A: Allocator + Copy>(
    alloc: A,
    depth: usize,
    bytes: &[u8],
) -> Result<(Value<A>, &[u8]), UnpackFault>
    ensures { Gives (λ x. (value_of x.0, x.1.now)) result
        (constructor_at (value_at depth) bytes.now) }
{
    let (constructor, rest) = read_number(bytes)?;
    let (fields, rest) = read_values(alloc, depth, rest)?;
    if fields.is_empty() {
        return Err(UnpackFault::NotATerm);
    }
    Ok((Value::Con(ConId(constructor), fields), rest))
}

/// The list of values at the front, and the bytes behind it.
#[cycle(read_value)]
#[tactic(auto, unfolding(theory_spelling::specs::Reading::list_at))]
fn read_values<A: Allocator + Copy>(
    alloc: A,
    depth: usize,
    bytes: &[u8],
) -> Result<(Vec<Value<A>, A>, &[u8]), UnpackFault>
    ensures { Gives (λ x. (values_of x.0.items, x.1.now)) result
        (list_at (value_at depth) bytes.now) }
{
    let (count, rest) = read_number(bytes)?;
    read_each_value(alloc, depth, count, rest)
}

/// So many values at the front, and the bytes behind them. The list takes room as they are read.
#[cycle(read_value)]
fn read_each_value<A: Allocator + Copy>(
    alloc: A,
    depth: usize,
    count: u32,
    bytes: &[u8],
) -> Result<(Vec<Value<A>, A>, &[u8]), UnpackFault>
    ensures { Gives (λ x. (values_of x.0.items, x.1.now)) result
        (items_at (value_at depth) count bytes.now) }
{
    let mut values = Vec::new(alloc);
    let mut rest = bytes;
    for _ in 0..count {
        let (value, after) = read_value(alloc, depth, rest)?;
        values.push(value)?;
        rest = after;
    }
    Ok((values, rest))
}
