//! Terms at the end of bytes.

ghost use Rattle.std.specs.Prelude.{◌≡◌, ◌++◌, OnOk};
ghost use Rattle.theory_syntax.specs.Expression.{to_expressions};
ghost use Rattle.theory_syntax.specs.Process.{AlphabetisedParallel, Call, GeneralisedParallel, Guard, Hiding, If, Prefix, Renaming, SlidingChoice};
ghost use Rattle.theory_syntax.specs.Operators.{binary_process, replicated_process};
ghost use Rattle.theory_spelling.specs.Spelling.{spelling};
ghost use Rattle.theory_spelling.specs.Packable.{IsPackable};
ghost use Rattle.theory_spelling.specs.Ranges.{IsInRange};
ghost use Rattle.csp_events.specs.Events.{event_set_of, renaming_pairs_of};
ghost use Rattle.csp_expression.specs.Expression.{expression_of, expressions_of};
ghost use Rattle.csp_term.specs.Field.{fields_of};
ghost use Rattle.csp_term.specs.Term.{process_of, process_of_form};

use crate::events::{push_event_set, push_pairs};
use crate::expressions::{push_expression, push_expressions};
use crate::fields::push_fields;
use crate::numbers::push_number;
use crate::tags::{process_tag, replicated_tag};
use csp_events::{EventSet, RenamingPair};
use csp_expression::Expr;
use csp_term::{
    ChannelId, EquationId, Field, Memory, Name, ProcessOperator, ReplicatedOperator, Term, TermForm,
};
use std::alloc::Allocator;

/// Puts the spelling of the term at the end. After `Memory` a beginning of it may stand there.
#[cycle(push_spelling)]
pub(crate) fn push_spelling<A: Allocator>(
    term: &Term<A>,
    bytes: &mut Vec<u8, A>,
) -> Result<(), Memory>
    requires { IsPackable (process_of term.now) }
    ensures spelled { OnOk result (bytes.new.items ≡ bytes.old.items
        ++ spelling (process_of term.now)) }
    ensures range { OnOk result (IsInRange (process_of term.now)) }
{
    push_form(term.form(), bytes)
}

/// Puts the spelling of the form at the end.
#[cycle(push_spelling)]
fn push_form<A: Allocator>(form: &TermForm<A>, bytes: &mut Vec<u8, A>) -> Result<(), Memory>
    requires { IsPackable (process_of_form form.now) }
    ensures spelled { OnOk result (bytes.new.items ≡ bytes.old.items
        ++ spelling (process_of_form form.now)) }
    ensures range { OnOk result (IsInRange (process_of_form form.now)) }
{
    match form {
        TermForm::Stop => Ok(bytes.push(0x01)?),
        TermForm::Skip => Ok(bytes.push(0x02)?),
        TermForm::Omega => Ok(bytes.push(0x03)?),
        TermForm::Call(equation, arguments) => push_call(*equation, arguments, bytes),
        TermForm::Prefix(channel, fields, body) => push_prefix(*channel, fields, body, bytes),
        TermForm::Guard(condition, body) => push_guard(condition, body, bytes),
        TermForm::If(condition, first, second) => push_if(condition, first, second, bytes),
        TermForm::Binary(operator, left, right) => push_binary(*operator, left, right, bytes),
        TermForm::GeneralisedParallel(left, shared, right) => push_generalised(
            left, shared, right, bytes,
        ),
        TermForm::AlphabetisedParallel(left, own, other, right) => push_alphabetised(
            left, own, other, right, bytes,
        ),
        TermForm::Hiding(body, hidden) => push_hiding(body, hidden, bytes),
        TermForm::Renaming(body, pairs) => push_renaming(body, pairs, bytes),
        TermForm::Replicated(operator, name, set, body) => push_replicated(
            *operator, *name, set, body, bytes,
        ),
        TermForm::SlidingChoice(left, right) => push_sliding(left, right, bytes),
    }
}

/// Puts the tag of a call, its equation and its arguments at the end.
fn push_call<A: Allocator>(
    equation: EquationId,
    arguments: &[Expr<A>],
    bytes: &mut Vec<u8, A>,
) -> Result<(), Memory>
    requires { IsPackable (Call equation.0 (to_expressions (expressions_of arguments.now))) }
    ensures spelled { OnOk result (bytes.new.items ≡ bytes.old.items
        ++ spelling (Call equation.0 (to_expressions (expressions_of arguments.now)))) }
    ensures range { OnOk result (IsInRange
        (Call equation.0 (to_expressions (expressions_of arguments.now)))) }
{
    bytes.push(0x04)?;
    push_number(equation.0, bytes)?;
    push_expressions(arguments, bytes)
}

/// Puts the tag of a prefix, its channel, its fields and its body at the end.
#[cycle(push_spelling)]
fn push_prefix<A: Allocator>(
    channel: ChannelId,
    fields: &[Field<A>],
    body: &Term<A>,
    bytes: &mut Vec<u8, A>,
) -> Result<(), Memory>
    requires { IsPackable (Prefix channel.0 (fields_of fields.now) (process_of body.now)) }
    ensures spelled { OnOk result (bytes.new.items ≡ bytes.old.items
        ++ spelling (Prefix channel.0 (fields_of fields.now) (process_of body.now))) }
    ensures range { OnOk result (IsInRange
        (Prefix channel.0 (fields_of fields.now) (process_of body.now))) }
{
    bytes.push(0x05)?;
    push_number(channel.0, bytes)?;
    push_fields(fields, bytes)?;
    push_spelling(body, bytes)
}

/// Puts the tag of a guard, its condition and its body at the end.
#[cycle(push_spelling)]
fn push_guard<A: Allocator>(
    condition: &Expr<A>,
    body: &Term<A>,
    bytes: &mut Vec<u8, A>,
) -> Result<(), Memory>
    requires { IsPackable (Guard (expression_of condition.now) (process_of body.now)) }
    ensures spelled { OnOk result (bytes.new.items ≡ bytes.old.items
        ++ spelling (Guard (expression_of condition.now) (process_of body.now))) }
    ensures range { OnOk result (IsInRange
        (Guard (expression_of condition.now) (process_of body.now))) }
{
    bytes.push(0x06)?;
    push_expression(condition, bytes)?;
    push_spelling(body, bytes)
}

/// Puts the tag of a choice by a condition, the condition and both branches at the end.
#[cycle(push_spelling)]
fn push_if<A: Allocator>(
    condition: &Expr<A>,
    first: &Term<A>,
    second: &Term<A>,
    bytes: &mut Vec<u8, A>,
) -> Result<(), Memory>
    requires { IsPackable (If (expression_of condition.now) (process_of first.now)
        (process_of second.now)) }
    ensures spelled { OnOk result (bytes.new.items ≡ bytes.old.items
        ++ spelling (If (expression_of condition.now) (process_of first.now)
        (process_of second.now))) }
    ensures range { OnOk result (IsInRange
        (If (expression_of condition.now) (process_of first.now) (process_of second.now))) }
{
    bytes.push(0x07)?;
    push_expression(condition, bytes)?;
    push_spelling(first, bytes)?;
    push_spelling(second, bytes)
}

/// Puts the tag of the operator and both operands at the end.
#[cycle(push_spelling)]
fn push_binary<A: Allocator>(
    operator: ProcessOperator,
    left: &Term<A>,
    right: &Term<A>,
    bytes: &mut Vec<u8, A>,
) -> Result<(), Memory>
    requires { IsPackable (binary_process operator (process_of left.now) (process_of right.now)) }
    ensures spelled { OnOk result (bytes.new.items ≡ bytes.old.items
        ++ spelling (binary_process operator (process_of left.now) (process_of right.now))) }
    ensures range { OnOk result (IsInRange
        (binary_process operator (process_of left.now) (process_of right.now))) }
{
    bytes.push(process_tag(operator))?;
    push_spelling(left, bytes)?;
    push_spelling(right, bytes)
}

/// Puts the tag of two processes that share events, and both with the set of these between them, at the end.
#[cycle(push_spelling)]
fn push_generalised<A: Allocator>(
    left: &Term<A>,
    shared: &EventSet<A>,
    right: &Term<A>,
    bytes: &mut Vec<u8, A>,
) -> Result<(), Memory>
    requires { IsPackable (GeneralisedParallel (process_of left.now) (event_set_of shared.now)
        (process_of right.now)) }
    ensures spelled { OnOk result (bytes.new.items ≡ bytes.old.items
        ++ spelling (GeneralisedParallel (process_of left.now) (event_set_of shared.now)
        (process_of right.now))) }
    ensures range { OnOk result (IsInRange
        (GeneralisedParallel (process_of left.now) (event_set_of shared.now)
        (process_of right.now))) }
{
    bytes.push(0x0d)?;
    push_spelling(left, bytes)?;
    push_event_set(shared, bytes)?;
    push_spelling(right, bytes)
}

/// Puts the tag of two processes that have events of their own, and both with the set of each between them, at the end.
#[cycle(push_spelling)]
fn push_alphabetised<A: Allocator>(
    left: &Term<A>,
    own: &EventSet<A>,
    other: &EventSet<A>,
    right: &Term<A>,
    bytes: &mut Vec<u8, A>,
) -> Result<(), Memory>
    requires { IsPackable (AlphabetisedParallel (process_of left.now) (event_set_of own.now)
        (event_set_of other.now) (process_of right.now)) }
    ensures spelled { OnOk result (bytes.new.items ≡ bytes.old.items
        ++ spelling (AlphabetisedParallel (process_of left.now) (event_set_of own.now)
        (event_set_of other.now) (process_of right.now))) }
    ensures range { OnOk result (IsInRange
        (AlphabetisedParallel (process_of left.now) (event_set_of own.now) (event_set_of other.now)
        (process_of right.now))) }
{
    bytes.push(0x0e)?;
    push_spelling(left, bytes)?;
    push_event_set(own, bytes)?;
    push_event_set(other, bytes)?;
    push_spelling(right, bytes)
}

/// Puts the tag of hiding, the process and the events that are hidden in it at the end.
#[cycle(push_spelling)]
fn push_hiding<A: Allocator>(
    body: &Term<A>,
    hidden: &EventSet<A>,
    bytes: &mut Vec<u8, A>,
) -> Result<(), Memory>
    requires { IsPackable (Hiding (process_of body.now) (event_set_of hidden.now)) }
    ensures spelled { OnOk result (bytes.new.items ≡ bytes.old.items
        ++ spelling (Hiding (process_of body.now) (event_set_of hidden.now))) }
    ensures range { OnOk result (IsInRange
        (Hiding (process_of body.now) (event_set_of hidden.now))) }
{
    bytes.push(0x0f)?;
    push_spelling(body, bytes)?;
    push_event_set(hidden, bytes)
}

/// Puts the tag of renaming, the process and the pairs by which it is renamed at the end.
#[cycle(push_spelling)]
fn push_renaming<A: Allocator>(
    body: &Term<A>,
    pairs: &[RenamingPair<A>],
    bytes: &mut Vec<u8, A>,
) -> Result<(), Memory>
    requires { IsPackable (Renaming (process_of body.now) (renaming_pairs_of pairs.now)) }
    ensures spelled { OnOk result (bytes.new.items ≡ bytes.old.items
        ++ spelling (Renaming (process_of body.now) (renaming_pairs_of pairs.now))) }
    ensures range { OnOk result (IsInRange
        (Renaming (process_of body.now) (renaming_pairs_of pairs.now))) }
{
    bytes.push(0x10)?;
    push_spelling(body, bytes)?;
    push_pairs(pairs, bytes)
}

/// Puts the tag of the operator, the name, the set and the process at the end.
#[cycle(push_spelling)]
fn push_replicated<A: Allocator>(
    operator: ReplicatedOperator,
    name: Name,
    set: &Expr<A>,
    body: &Term<A>,
    bytes: &mut Vec<u8, A>,
) -> Result<(), Memory>
    requires { IsPackable (replicated_process operator name.0 (expression_of set.now)
        (process_of body.now)) }
    ensures spelled { OnOk result (bytes.new.items ≡ bytes.old.items
        ++ spelling (replicated_process operator name.0 (expression_of set.now)
        (process_of body.now))) }
    ensures range { OnOk result (IsInRange
        (replicated_process operator name.0 (expression_of set.now) (process_of body.now))) }
{
    bytes.push(replicated_tag(operator))?;
    push_number(name.0, bytes)?;
    push_expression(set, bytes)?;
    push_spelling(body, bytes)
}

/// Puts the tag of a sliding choice and both processes at the end.
#[cycle(push_spelling)]
fn push_sliding<A: Allocator>(
    left: &Term<A>,
    right: &Term<A>,
    bytes: &mut Vec<u8, A>,
) -> Result<(), Memory>
    requires { IsPackable (SlidingChoice (process_of left.now) (process_of right.now)) }
    ensures spelled { OnOk result (bytes.new.items ≡ bytes.old.items
        ++ spelling (SlidingChoice (process_of left.now) (process_of right.now))) }
    ensures range { OnOk result (IsInRange
        (SlidingChoice (process_of left.now) (process_of right.now))) }
{
    bytes.push(0x14)?;
    push_spelling(left, bytes)?;
    push_spelling(right, bytes)
}
