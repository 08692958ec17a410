//! The unfolding of the active calls of a term, each at its place.

ghost use Rattle.std.specs.Prelude.{◌≡◌, IfOk, IfSome, IsTrue, None, Ok, Option, Some};
ghost use Rattle.theory_syntax.specs.Expression.{to_expressions};
ghost use Rattle.theory_syntax.specs.Operators.{binary_process, replicated_process};
ghost use Rattle.theory_syntax.specs.Process.{Process};
ghost use Rattle.theory_semantics.specs.Meaning.Events.{called, condition};
ghost use Rattle.theory_semantics.specs.Meaning.Limits.{fits};
ghost use Rattle.theory_semantics.specs.Meaning.Unfolding.{body_or, picked, settled_within, stands_for, unfolded_or, unless_called, where_true};
ghost use Rattle.csp_expression.specs.Expression.{expression_of, expressions_of};
ghost use Rattle.csp_term.specs.Script.{script_of_parts};
ghost use Rattle.csp_term.specs.Term.{process_of};
ghost use Rattle.csp_settling.specs.Settling.{IsSeenAs, IsWithin, TellsSides, TellsUnfolded, call_of, calls_unfolded};

use crate::body::called;
use crate::instances::chain;
use crate::operands::{
    in_alphabetised, in_binary, in_generalised, in_hiding, in_renaming, in_sequence, in_sliding,
};
use crate::place::{changed_or, is_call, is_no_larger};
use crate::truth::{Decision, decide};
use crate::unfolded::{Sides, Unfolded, both};
use csp_expression::{Expr, NoValue};
use csp_term::{
    EquationId, Memory, Name, ProcessOperator, ReplicatedOperator, ScriptParts, Term, TermForm,
};
use std::alloc::Allocator;

/// No call, for a term that stands in the body of none.
pub(crate) fn no_call<A: Allocator>(_term: &Term<A>) -> Option<&Term<A>>
    ensures { result ≡ None }
{
    None
}

/// The term with its active calls unfolded, at most so many in a row. If it stands in the body of a call, that very call
/// is left.
#[cycle(unfold)]
pub(crate) fn unfold<A: Allocator + Copy>(
    alloc: A,
    script: &ScriptParts<A>,
    most: u32,
    within: Option<&Term<A>>,
    term: &Term<A>,
) -> Result<Unfolded<A>, Memory>
    ensures { IfOk result (TellsUnfolded (process_of term.now)
        (settled_within most (script_of_parts script.now) (call_of within.entry)
        (process_of term.now))) }
{
    if most == 0 {
        return Ok(Unfolded::Same);
    }
    unfold_calls(alloc, script, most - 1, within, term)
}

/// The term with each active call unfolded to its body, and that with at most so many more in a row.
#[cycle(unfold)]
fn unfold_calls<A: Allocator + Copy>(
    alloc: A,
    script: &ScriptParts<A>,
    more: u32,
    within: Option<&Term<A>>,
    term: &Term<A>,
) -> Result<Unfolded<A>, Memory>
    ensures { IfOk result (TellsUnfolded (process_of term.now)
        (calls_unfolded script.now more within.entry (process_of term.now))) }
{
    match term.form() {
        TermForm::Stop => Ok(Unfolded::Same),
        TermForm::Skip => Ok(Unfolded::Same),
        TermForm::Omega => Ok(Unfolded::Same),
        TermForm::Prefix(_, _, _) => Ok(Unfolded::Same),
        TermForm::Call(equation, arguments) => {
            call(alloc, script, more, within, term, *equation, arguments)
        }
        TermForm::Guard(test, body) => guarded(alloc, script, more, within, term, test, body),
        TermForm::If(test, first, second) => {
            conditional(alloc, script, more, within, term, test, first, second)
        }
        TermForm::Binary(operator, left, right) => {
            binary(alloc, script, more, within, *operator, left, right)
        }
        TermForm::GeneralisedParallel(left, shared, right) => {
            let sides = sides(alloc, script, more, within, left, right)?;
            in_generalised(alloc, shared, sides)
        }
        TermForm::AlphabetisedParallel(left, own, other, right) => {
            let sides = sides(alloc, script, more, within, left, right)?;
            in_alphabetised(alloc, own, other, sides)
        }
        TermForm::Hiding(body, hidden) => {
            let unfolded = unfold_calls(alloc, script, more, within, body)?;
            in_hiding(alloc, unfolded, hidden)
        }
        TermForm::Renaming(body, pairs) => {
            let unfolded = unfold_calls(alloc, script, more, within, body)?;
            in_renaming(alloc, unfolded, pairs)
        }
        TermForm::Replicated(operator, name, set, body) => {
            replicated(
                alloc, script, more, within, term, *operator, *name, set, body,
            )
        }
        TermForm::SlidingChoice(left, right) => {
            let unfolded = unfold_calls(alloc, script, more, within, left)?;
            in_sliding(alloc, unfolded, right)
        }
    }
}

/// Both sides of an operator with their active calls unfolded.
#[cycle(unfold)]
fn sides<A: Allocator + Copy>(
    alloc: A,
    script: &ScriptParts<A>,
    more: u32,
    within: Option<&Term<A>>,
    left: &Term<A>,
    right: &Term<A>,
) -> Result<Sides<A>, Memory>
    ensures { IfOk result (TellsSides (process_of left.now)
        (calls_unfolded script.now more within.entry (process_of left.now)) (process_of right.now)
        (calls_unfolded script.now more within.entry (process_of right.now))) }
{
    let first = unfold_calls(alloc, script, more, within, left)?;
    if first.is_past() {
        return Ok(Sides::Past);
    }
    let second = unfold_calls(alloc, script, more, within, right)?;
    both(alloc, left, first, right, second)
}

/// An operator of two processes with the active calls of those that it looks at unfolded.
#[cycle(unfold)]
fn binary<A: Allocator + Copy>(
    alloc: A,
    script: &ScriptParts<A>,
    more: u32,
    within: Option<&Term<A>>,
    operator: ProcessOperator,
    left: &Term<A>,
    right: &Term<A>,
) -> Result<Unfolded<A>, Memory>
    ensures { IfOk result (TellsUnfolded
        (binary_process operator (process_of left.now) (process_of right.now))
        (calls_unfolded script.now more within.entry
        (binary_process operator (process_of left.now) (process_of right.now)))) }
{
    match operator {
        ProcessOperator::InternalChoice => Ok(Unfolded::Same),
        ProcessOperator::Sequential => {
            let unfolded = unfold_calls(alloc, script, more, within, left)?;
            in_sequence(alloc, unfolded, right)
        }
        ProcessOperator::ExternalChoice => {
            let sides = sides(alloc, script, more, within, left, right)?;
            in_binary(alloc, ProcessOperator::ExternalChoice, sides)
        }
        ProcessOperator::Interleaving => {
            let sides = sides(alloc, script, more, within, left, right)?;
            in_binary(alloc, ProcessOperator::Interleaving, sides)
        }
        ProcessOperator::Interrupt => {
            let sides = sides(alloc, script, more, within, left, right)?;
            in_binary(alloc, ProcessOperator::Interrupt, sides)
        }
    }
}

/// A call is unfolded to its body, gone on with, unless it stands in that very body, or the body is smaller.
#[cycle(unfold)]
fn call<A: Allocator + Copy>(
    alloc: A,
    script: &ScriptParts<A>,
    more: u32,
    within: Option<&Term<A>>,
    term: &Term<A>,
    equation: EquationId,
    arguments: &[Expr<A>],
) -> Result<Unfolded<A>, Memory>
    ensures { IfOk result (TellsUnfolded (process_of term.now)
        (unless_called (call_of within.entry) (process_of term.now)
        (body_or (settled_within more (script_of_parts script.now) (Some (process_of term.now))) (process_of term.now)
        (called (script_of_parts script.now) equation.0 (to_expressions (expressions_of arguments.now)))))) }
{
    if is_call(within, term) {
        return Ok(Unfolded::Same);
    }
    match called(alloc, script, &[], equation, arguments) {
        Ok(body) => in_call(alloc, script, more, term, body),
        Err(NoValue::Memory) => Err(Memory),
        Err(NoValue::Cause(_)) => Ok(Unfolded::Same),
    }
}

/// The body of the call, if it is within the limits, gone on with, unless it is smaller.
#[cycle(unfold)]
fn in_call<A: Allocator + Copy>(
    alloc: A,
    script: &ScriptParts<A>,
    more: u32,
    term: &Term<A>,
    body: Option<Term<A>>,
) -> Result<Unfolded<A>, Memory>
    requires { IfSome body (λ t. IsTrue (fits (process_of t))) }
    ensures { (t : Process) → IsWithin body t → IfOk result (TellsUnfolded (process_of term.now)
        (body_or (settled_within more (script_of_parts script.now) (Some (process_of term.now))) (process_of term.now) (Ok t))) }
{
    match body {
        None => Ok(Unfolded::Past),
        Some(body) => in_body(alloc, script, more, term, body),
    }
}

/// The body of the call, gone on with, unless it is smaller.
#[cycle(unfold)]
fn in_body<A: Allocator + Copy>(
    alloc: A,
    script: &ScriptParts<A>,
    more: u32,
    term: &Term<A>,
    body: Term<A>,
) -> Result<Unfolded<A>, Memory>
    requires { IsTrue (fits (process_of body)) }
    ensures { IfOk result (TellsUnfolded (process_of term.now)
        (body_or (settled_within more (script_of_parts script.now) (Some (process_of term.now))) (process_of term.now) (Ok (process_of body)))) }
{
    if !is_no_larger(term, &body) {
        return Ok(Unfolded::Same);
    }
    let unfolded = unfold(alloc, script, more, Some(term), &body)?;
    Ok(unfolded.behind(body))
}

/// `e & P` stands for `P` where the condition is true.
#[cycle(unfold)]
fn guarded<A: Allocator + Copy>(
    alloc: A,
    script: &ScriptParts<A>,
    more: u32,
    within: Option<&Term<A>>,
    term: &Term<A>,
    test: &Expr<A>,
    body: &Term<A>,
) -> Result<Unfolded<A>, Memory>
    ensures { IfOk result (TellsUnfolded (process_of term.now)
        (unfolded_or (settled_within more (script_of_parts script.now) (call_of within.entry)) (process_of term.now)
        (where_true (condition (script_of_parts script.now).types (expression_of test.now)) (process_of body.now)))) }
{
    let decision = decide(alloc, &script.types, test)?;
    match decision {
        Decision::Holds => seen_through(alloc, script, more, within, term, body),
        Decision::Fails => Ok(Unfolded::Same),
        Decision::Faulty => Ok(Unfolded::Same),
    }
}

/// `if e then P else Q` stands for the branch that the condition picks.
#[cycle(unfold)]
fn conditional<A: Allocator + Copy>(
    alloc: A,
    script: &ScriptParts<A>,
    more: u32,
    within: Option<&Term<A>>,
    term: &Term<A>,
    test: &Expr<A>,
    first: &Term<A>,
    second: &Term<A>,
) -> Result<Unfolded<A>, Memory>
    ensures { IfOk result (TellsUnfolded (process_of term.now)
        (unfolded_or (settled_within more (script_of_parts script.now) (call_of within.entry)) (process_of term.now)
        (picked (condition (script_of_parts script.now).types (expression_of test.now)) (process_of first.now) (process_of second.now)))) }
{
    let decision = decide(alloc, &script.types, test)?;
    match decision {
        Decision::Holds => seen_through(alloc, script, more, within, term, first),
        Decision::Fails => seen_through(alloc, script, more, within, term, second),
        Decision::Faulty => Ok(Unfolded::Same),
    }
}

/// A replicated operator that looks at its instances stands for their chain.
#[cycle(unfold)]
fn replicated<A: Allocator + Copy>(
    alloc: A,
    script: &ScriptParts<A>,
    more: u32,
    within: Option<&Term<A>>,
    term: &Term<A>,
    operator: ReplicatedOperator,
    name: Name,
    set: &Expr<A>,
    body: &Term<A>,
) -> Result<Unfolded<A>, Memory>
    ensures { IfOk result (TellsUnfolded (process_of term.now)
        (unfolded_or (settled_within more (script_of_parts script.now) (call_of within.entry)) (process_of term.now)
        (stands_for (script_of_parts script.now) (replicated_process operator name.0 (expression_of set.now) (process_of body.now))))) }
{
    match operator {
        ReplicatedOperator::InternalChoice => Ok(Unfolded::Same),
        ReplicatedOperator::ExternalChoice => {
            let joint = ProcessOperator::ExternalChoice;
            let chain = chain(alloc, &script.types, joint, name, set, body)?;
            in_chain(alloc, script, more, within, term, chain)
        }
        ReplicatedOperator::Interleaving => {
            let joint = ProcessOperator::Interleaving;
            let chain = chain(alloc, &script.types, joint, name, set, body)?;
            in_chain(alloc, script, more, within, term, chain)
        }
    }
}

/// A term that stands for the chain, if there is one.
#[cycle(unfold)]
fn in_chain<A: Allocator + Copy>(
    alloc: A,
    script: &ScriptParts<A>,
    more: u32,
    within: Option<&Term<A>>,
    term: &Term<A>,
    chain: Option<Term<A>>,
) -> Result<Unfolded<A>, Memory>
    ensures { (o : Option Process) → IsSeenAs script.now more within.entry o chain → IfOk result (TellsUnfolded (process_of term.now)
        (unfolded_or (settled_within more (script_of_parts script.now) (call_of within.entry)) (process_of term.now) o)) }
{
    match chain {
        Some(chain) => seen_through(alloc, script, more, within, term, &chain),
        None => Ok(Unfolded::Same),
    }
}

/// A term that stands for a process is seen through where a call of that process unfolds.
#[cycle(unfold)]
fn seen_through<A: Allocator + Copy>(
    alloc: A,
    script: &ScriptParts<A>,
    more: u32,
    within: Option<&Term<A>>,
    term: &Term<A>,
    process: &Term<A>,
) -> Result<Unfolded<A>, Memory>
    ensures { IfOk result (TellsUnfolded (process_of term.now)
        (unfolded_or (settled_within more (script_of_parts script.now) (call_of within.entry)) (process_of term.now) (Some (process_of process.now)))) }
{
    if !process.fits() {
        return Ok(Unfolded::Same);
    }
    let unfolded = unfold(alloc, script, more, within, process)?;
    Ok(changed_or(term, process, unfolded))
}
