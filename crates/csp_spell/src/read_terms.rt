//! Terms at the front of bytes.

ghost use Rattle.theory_spelling.specs.Reading.{alphabetised_at, call_at, generalised_at, guard_at, hiding_at, if_at, prefix_at, process_at, process_behind, renaming_at, replicated_at, two_at};
ghost use Rattle.theory_syntax.specs.Operators.{binary_process, replicated_process};
ghost use Rattle.theory_syntax.specs.Process.{SlidingChoice};
ghost use Rattle.csp_term.specs.Term.{process_of};
ghost use Rattle.csp_spell.specs.Gives.{Gives};

use crate::fault::UnpackFault;
use crate::read_events::{read_event_set, read_pairs};
use crate::read_expressions::{read_expression, read_expressions};
use crate::read_fields::read_fields;
use crate::read_numbers::{read_byte, read_number};
use csp_term::{ChannelId, EquationId, Name, ProcessOperator, ReplicatedOperator, Term, TermForm};
use std::alloc::Allocator;

/// The term at the front, and the bytes behind it. It nests at most so deep.
#[cycle(read_term)]
#[tactic(auto, unfolding(theory_spelling::specs::Reading::process_at))]
pub(crate) fn read_term<A: Allocator + Copy>(
    alloc: A,
    depth: usize,
    bytes: &[u8],
) -> Result<(Term<A>, &[u8]), UnpackFault>
    ensures { Gives (λ x. (process_of x.0, x.1.now)) result (process_at depth bytes.now) }
{
    if depth == 0 {
        return Err(UnpackFault::NotATerm);
    }
    let (tag, rest) = read_byte(bytes)?;
    read_tagged(alloc, depth - 1, tag, rest)
}

/// The term behind its tag, and the bytes behind it. Its parts nest at most so deep.
#[cycle(read_term)]
#[tactic(auto, unfolding(theory_spelling::specs::Reading::process_behind))]
fn read_tagged<A: Allocator + Copy>(
    alloc: A,
    depth: usize,
    tag: u8,
    bytes: &[u8],
) -> Result<(Term<A>, &[u8]), UnpackFault>
    ensures { Gives (λ x. (process_of x.0, x.1.now)) result
        (process_behind depth (process_at depth) tag bytes.now) }
{
    match tag {
        0x01 => Ok((Term::new(alloc, TermForm::Stop)?, bytes)),
        0x02 => Ok((Term::new(alloc, TermForm::Skip)?, bytes)),
        0x03 => Ok((Term::new(alloc, TermForm::Omega)?, bytes)),
        0x04 => read_call(alloc, depth, bytes),
        0x05 => read_prefix(alloc, depth, bytes),
        0x06 => read_guard(alloc, depth, bytes),
        0x07 => read_if(alloc, depth, bytes),
        0x08 => read_operands(alloc, ProcessOperator::ExternalChoice, depth, bytes),
        0x09 => read_operands(alloc, ProcessOperator::InternalChoice, depth, bytes),
        0x0a => read_operands(alloc, ProcessOperator::Sequential, depth, bytes),
        0x0b => read_operands(alloc, ProcessOperator::Interleaving, depth, bytes),
        0x0c => read_operands(alloc, ProcessOperator::Interrupt, depth, bytes),
        0x0d => read_generalised(alloc, depth, bytes),
        0x0e => read_alphabetised(alloc, depth, bytes),
        0x0f => read_hiding(alloc, depth, bytes),
        0x10 => read_renaming(alloc, depth, bytes),
        0x11 => read_replicated(alloc, ReplicatedOperator::ExternalChoice, depth, bytes),
        0x12 => read_replicated(alloc, ReplicatedOperator::InternalChoice, depth, bytes),
        0x13 => read_replicated(alloc, ReplicatedOperator::Interleaving, depth, bytes),
        0x14 => read_sliding(alloc, depth, bytes),
        _ => Err(UnpackFault::NotATerm),
    }
}

/// A call's equation and arguments, and the bytes behind them.
#[tactic(auto, unfolding(theory_spelling::specs::Reading::call_at, theory_spelling::specs::Reading::expressions_at))]
fn read_call<A: Allocator + Copy>(
    alloc: A,
    depth: usize,
    bytes: &[u8],
) -> Result<(Term<A>, &[u8]), UnpackFault>
    ensures { Gives (λ x. (process_of x.0, x.1.now)) result (call_at depth bytes.now) }
{
    let (equation, rest) = read_number(bytes)?;
    let (arguments, rest) = read_expressions(alloc, depth, rest)?;
    let form = TermForm::Call(EquationId(equation), arguments);
    Ok((Term::new(alloc, form)?, rest))
}

/// A prefix's channel, fields and body, and the bytes behind them.
#[cycle(read_term)]
#[tactic(auto, unfolding(theory_spelling::specs::Reading::prefix_at))]
fn read_prefix<A: Allocator + Copy>(
    alloc: A,
    depth: usize,
    bytes: &[u8],
) -> Result<(Term<A>, &[u8]), UnpackFault>
    ensures { Gives (λ x. (process_of x.0, x.1.now)) result
        (prefix_at depth (process_at depth) bytes.now) }
{
    let (channel, rest) = read_number(bytes)?;
    let (fields, rest) = read_fields(alloc, depth, rest)?;
    let (body, rest) = read_term(alloc, depth, rest)?;
    let form = TermForm::Prefix(ChannelId(channel), fields, body);
    Ok((Term::new(alloc, form)?, rest))
}

/// A guard's condition and body, and the bytes behind them.
#[cycle(read_term)]
#[tactic(auto, unfolding(theory_spelling::specs::Reading::guard_at))]
fn read_guard<A: Allocator + Copy>(
    alloc: A,
    depth: usize,
    bytes: &[u8],
) -> Result<(Term<A>, &[u8]), UnpackFault>
    ensures { Gives (λ x. (process_of x.0, x.1.now)) result
        (guard_at depth (process_at depth) bytes.now) }
{
    let (condition, rest) = read_expression(alloc, depth, bytes)?;
    let (body, rest) = read_term(alloc, depth, rest)?;
    Ok((Term::new(alloc, TermForm::Guard(condition, body))?, rest))
}

/// A condition and both of its branches, and the bytes behind them.
#[cycle(read_term)]
#[tactic(auto, unfolding(theory_spelling::specs::Reading::if_at))]
fn read_if<A: Allocator + Copy>(
    alloc: A,
    depth: usize,
    bytes: &[u8],
) -> Result<(Term<A>, &[u8]), UnpackFault>
    ensures { Gives (λ x. (process_of x.0, x.1.now)) result
        (if_at depth (process_at depth) bytes.now) }
{
    let (condition, rest) = read_expression(alloc, depth, bytes)?;
    let (first, rest) = read_term(alloc, depth, rest)?;
    let (second, rest) = read_term(alloc, depth, rest)?;
    let form = TermForm::If(condition, first, second);
    Ok((Term::new(alloc, form)?, rest))
}

/// Both operands of the operator, and the bytes behind them.
#[cycle(read_term)]
#[tactic(auto, unfolding(theory_spelling::specs::Reading::two_at))]
fn read_operands<A: Allocator + Copy>(
    alloc: A,
    operator: ProcessOperator,
    depth: usize,
    bytes: &[u8],
) -> Result<(Term<A>, &[u8]), UnpackFault>
    ensures { Gives (λ x. (process_of x.0, x.1.now)) result
        (two_at (process_at depth) (binary_process operator) bytes.now) }
{
    let (left, rest) = read_term(alloc, depth, bytes)?;
    let (right, rest) = read_term(alloc, depth, rest)?;
    let form = TermForm::Binary(operator, left, right);
    Ok((Term::new(alloc, form)?, rest))
}

/// Both processes of a sliding choice, and the bytes behind them.
#[cycle(read_term)]
#[tactic(auto, unfolding(theory_spelling::specs::Reading::two_at))]
fn read_sliding<A: Allocator + Copy>(
    alloc: A,
    depth: usize,
    bytes: &[u8],
) -> Result<(Term<A>, &[u8]), UnpackFault>
    ensures { Gives (λ x. (process_of x.0, x.1.now)) result
        (two_at (process_at depth) SlidingChoice bytes.now) }
{
    let (left, rest) = read_term(alloc, depth, bytes)?;
    let (right, rest) = read_term(alloc, depth, rest)?;
    Ok((
        Term::new(alloc, TermForm::SlidingChoice(left, right))?,
        rest,
    ))
}

/// Both operands with the set of shared events between them, and the bytes behind them.
#[cycle(read_term)]
#[tactic(auto, unfolding(theory_spelling::specs::Reading::generalised_at))]
fn read_generalised<A: Allocator + Copy>(
    alloc: A,
    depth: usize,
    bytes: &[u8],
) -> Result<(Term<A>, &[u8]), UnpackFault>
    ensures { Gives (λ x. (process_of x.0, x.1.now)) result
        (generalised_at depth (process_at depth) bytes.now) }
{
    let (left, rest) = read_term(alloc, depth, bytes)?;
    let (shared, rest) = read_event_set(alloc, depth, rest)?;
    let (right, rest) = read_term(alloc, depth, rest)?;
    let form = TermForm::GeneralisedParallel(left, shared, right);
    Ok((Term::new(alloc, form)?, rest))
}

/// Both operands with the set of each between them, and the bytes behind them.
#[cycle(read_term)]
#[tactic(auto, unfolding(theory_spelling::specs::Reading::alphabetised_at))]
fn read_alphabetised<A: Allocator + Copy>(
    alloc: A,
    depth: usize,
    bytes: &[u8],
) -> Result<(Term<A>, &[u8]), UnpackFault>
    ensures { Gives (λ x. (process_of x.0, x.1.now)) result
        (alphabetised_at depth (process_at depth) bytes.now) }
{
    let (left, rest) = read_term(alloc, depth, bytes)?;
    let (own, rest) = read_event_set(alloc, depth, rest)?;
    let (other, rest) = read_event_set(alloc, depth, rest)?;
    let (right, rest) = read_term(alloc, depth, rest)?;
    let form = TermForm::AlphabetisedParallel(left, own, other, right);
    Ok((Term::new(alloc, form)?, rest))
}

/// A process and the events that are hidden in it, and the bytes behind them.
#[cycle(read_term)]
#[tactic(auto, unfolding(theory_spelling::specs::Reading::hiding_at))]
fn read_hiding<A: Allocator + Copy>(
    alloc: A,
    depth: usize,
    bytes: &[u8],
) -> Result<(Term<A>, &[u8]), UnpackFault>
    ensures { Gives (λ x. (process_of x.0, x.1.now)) result
        (hiding_at depth (process_at depth) bytes.now) }
{
    let (body, rest) = read_term(alloc, depth, bytes)?;
    let (hidden, rest) = read_event_set(alloc, depth, rest)?;
    Ok((Term::new(alloc, TermForm::Hiding(body, hidden))?, rest))
}

/// A process and the pairs by which it is renamed, and the bytes behind them.
#[cycle(read_term)]
#[tactic(auto, unfolding(theory_spelling::specs::Reading::renaming_at))]
fn read_renaming<A: Allocator + Copy>(
    alloc: A,
    depth: usize,
    bytes: &[u8],
) -> Result<(Term<A>, &[u8]), UnpackFault>
    ensures { Gives (λ x. (process_of x.0, x.1.now)) result
        (renaming_at depth (process_at depth) bytes.now) }
{
    let (body, rest) = read_term(alloc, depth, bytes)?;
    let (pairs, rest) = read_pairs(alloc, depth, rest)?;
    Ok((Term::new(alloc, TermForm::Renaming(body, pairs))?, rest))
}

/// The name, the set and the process of the operator, and the bytes behind them.
#[cycle(read_term)]
#[tactic(auto, unfolding(theory_spelling::specs::Reading::replicated_at))]
fn read_replicated<A: Allocator + Copy>(
    alloc: A,
    operator: ReplicatedOperator,
    depth: usize,
    bytes: &[u8],
) -> Result<(Term<A>, &[u8]), UnpackFault>
    ensures { Gives (λ x. (process_of x.0, x.1.now)) result
        (replicated_at depth (process_at depth) (replicated_process operator) bytes.now) }
{
    let (name, rest) = read_number(bytes)?;
    let (set, rest) = read_expression(alloc, depth, rest)?;
    let (body, rest) = read_term(alloc, depth, rest)?;
    let form = TermForm::Replicated(operator, Name(name), set, body);
    Ok((Term::new(alloc, form)?, rest))
}
