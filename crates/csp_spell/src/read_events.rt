//! Events, sets of events and renamings at the front of bytes.

ghost use Rattle.theory_spelling.specs.Reading.{event_at, event_set_at, event_set_behind, items_at, list_at, pair_at, two_at};
ghost use Rattle.theory_syntax.specs.Operators.{combined};
ghost use Rattle.csp_events.specs.Events.{event_expression_of, event_expressions_of, event_set_of, renaming_pair_of, renaming_pairs_of};
ghost use Rattle.csp_spell.specs.Gives.{Gives};

use crate::fault::UnpackFault;
use crate::read_expressions::read_expressions;
use crate::read_numbers::{read_byte, read_number};
use csp_events::{EventExpression, EventSet, EventSetOperator, RenamingPair};
use csp_value::ChannelId;
use std::alloc::Allocator;

/// The event at the front, and the bytes behind it. Its parts nest at most so deep.
#[tactic(auto, unfolding(theory_spelling::specs::Reading::event_at, theory_spelling::specs::Reading::expressions_at))]
fn read_event<A: Allocator + Copy>(
    alloc: A,
    depth: usize,
    bytes: &[u8],
) -> Result<(EventExpression<A>, &[u8]), UnpackFault>
    ensures { Gives (λ x. (event_expression_of x.0, x.1.now)) result (event_at depth bytes.now) }
{
    let (channel, rest) = read_number(bytes)?;
    let (fields, rest) = read_expressions(alloc, depth, rest)?;
    let channel = ChannelId(channel);
    Ok((EventExpression { channel, fields }, rest))
}

/// The list of events at the front, and the bytes behind it.
#[tactic(auto, unfolding(theory_spelling::specs::Reading::list_at))]
fn read_events<A: Allocator + Copy>(
    alloc: A,
    depth: usize,
    bytes: &[u8],
) -> Result<(Vec<EventExpression<A>, A>, &[u8]), UnpackFault>
    ensures { Gives (λ x. (event_expressions_of x.0.items, x.1.now)) result
        (list_at (event_at depth) bytes.now) }
{
    let (count, rest) = read_number(bytes)?;
    read_each_event(alloc, depth, count, rest)
}

/// So many events at the front, and the bytes behind them. The list takes room as they are read.
fn read_each_event<A: Allocator + Copy>(
    alloc: A,
    depth: usize,
    count: u32,
    bytes: &[u8],
) -> Result<(Vec<EventExpression<A>, A>, &[u8]), UnpackFault>
    ensures { Gives (λ x. (event_expressions_of x.0.items, x.1.now)) result
        (items_at (event_at depth) count bytes.now) }
{
    let mut events = Vec::new(alloc);
    let mut rest = bytes;
    for _ in 0..count {
        let (event, after) = read_event(alloc, depth, rest)?;
        events.push(event)?;
        rest = after;
    }
    Ok((events, rest))
}

/// The set of events at the front, and the bytes behind it. It nests at most so deep.
#[cycle(read_event_set)]
#[tactic(auto, unfolding(theory_spelling::specs::Reading::event_set_at))]
pub(crate) fn read_event_set<A: Allocator + Copy>(
    alloc: A,
    depth: usize,
    bytes: &[u8],
) -> Result<(EventSet<A>, &[u8]), UnpackFault>
    ensures { Gives (λ x. (event_set_of x.0, x.1.now)) result (event_set_at depth bytes.now) }
{
    if depth == 0 {
        return Err(UnpackFault::NotATerm);
    }
    let (tag, rest) = read_byte(bytes)?;
    read_tagged(alloc, depth - 1, tag, rest)
}

/// The set of events behind its tag, and the bytes behind it. Its parts nest at most so deep.
#[cycle(read_event_set)]
#[tactic(auto, unfolding(theory_spelling::specs::Reading::event_set_behind))]
fn read_tagged<A: Allocator + Copy>(
    alloc: A,
    depth: usize,
    tag: u8,
    bytes: &[u8],
) -> Result<(EventSet<A>, &[u8]), UnpackFault>
    ensures { Gives (λ x. (event_set_of x.0, x.1.now)) result
        (event_set_behind depth (event_set_at depth) tag bytes.now) }
{
    match tag {
        0x28 => {
            let (events, rest) = read_events(alloc, depth, bytes)?;
            Ok((EventSet::Enumeration(events), rest))
        }
        0x29 => {
            let (events, rest) = read_events(alloc, depth, bytes)?;
            Ok((EventSet::Productions(events), rest))
        }
        0x2a => read_operands(alloc, EventSetOperator::Union, depth, bytes),
        0x2b => read_operands(alloc, EventSetOperator::Intersection, depth, bytes),
        0x2c => read_operands(alloc, EventSetOperator::Difference, depth, bytes),
        _ => Err(UnpackFault::NotATerm),
    }
}

/// Both operands of the operator, and the bytes behind them.
#[cycle(read_event_set)]
#[tactic(auto, unfolding(theory_spelling::specs::Reading::two_at))]
fn read_operands<A: Allocator + Copy>(
    alloc: A,
    operator: EventSetOperator,
    depth: usize,
    bytes: &[u8],
) -> Result<(EventSet<A>, &[u8]), UnpackFault>
    ensures { Gives (λ x. (event_set_of x.0, x.1.now)) result
        (two_at (event_set_at depth) (combined operator) bytes.now) }
{
    let (left, rest) = read_event_set(alloc, depth, bytes)?;
    let (right, rest) = read_event_set(alloc, depth, rest)?;
    let left = Box::new(alloc, left)?;
    let right = Box::new(alloc, right)?;
    Ok((EventSet::Combine(operator, left, right), rest))
}

/// The sides of a pair at the front, and the bytes behind them. Their parts nest at most so deep.
#[tactic(auto, unfolding(theory_spelling::specs::Reading::pair_at))]
fn read_pair<A: Allocator + Copy>(
    alloc: A,
    depth: usize,
    bytes: &[u8],
) -> Result<(RenamingPair<A>, &[u8]), UnpackFault>
    ensures { Gives (λ x. (renaming_pair_of x.0, x.1.now)) result (pair_at depth bytes.now) }
{
    let (from, rest) = read_event(alloc, depth, bytes)?;
    let (to, rest) = read_event(alloc, depth, rest)?;
    Ok((RenamingPair { from, to }, rest))
}

/// The list of pairs at the front, and the bytes behind it.
#[tactic(auto, unfolding(theory_spelling::specs::Reading::list_at))]
pub(crate) fn read_pairs<A: Allocator + Copy>(
    alloc: A,
    depth: usize,
    bytes: &[u8],
) -> Result<(Vec<RenamingPair<A>, A>, &[u8]), UnpackFault>
    ensures { Gives (λ x. (renaming_pairs_of x.0.items, x.1.now)) result
        (list_at (pair_at depth) bytes.now) }
{
    let (count, rest) = read_number(bytes)?;
    read_each_pair(alloc, depth, count, rest)
}

/// So many pairs at the front, and the bytes behind them. The list takes room as they are read.
fn read_each_pair<A: Allocator + Copy>(
    alloc: A,
    depth: usize,
    count: u32,
    bytes: &[u8],
) -> Result<(Vec<RenamingPair<A>, A>, &[u8]), UnpackFault>
    ensures { Gives (λ x. (renaming_pairs_of x.0.items, x.1.now)) result
        (items_at (pair_at depth) count bytes.now) }
{
    let mut pairs = Vec::new(alloc);
    let mut rest = bytes;
    for _ in 0..count {
        let (pair, after) = read_pair(alloc, depth, rest)?;
        pairs.push(pair)?;
        rest = after;
    }
    Ok((pairs, rest))
}
