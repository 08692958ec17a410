//! The text of terms.

ghost use Rattle.std.specs.Prelude.{◌≡◌, codes};
ghost use Rattle.theory_syntax.specs.Expression.{to_expressions};
ghost use Rattle.theory_syntax.specs.Process.{AlphabetisedParallel, GeneralisedParallel, Guard, Hiding, If, Prefix, Renaming};
ghost use Rattle.theory_syntax.specs.Operators.{replicated_process};
ghost use Rattle.csp_expression.specs.Expression.{expression_of, expressions_of};
ghost use Rattle.csp_events.specs.Events.{event_set_of, renaming_pairs_of};
ghost use Rattle.csp_term.specs.Field.{fields_of};
ghost use Rattle.csp_term.specs.Term.{process_of};
ghost use Rattle.theory_notation.specs.Told.{all_told};
ghost use Rattle.theory_notation.specs.Processes as notation;
ghost use Rattle.theory_notation.specs.Processes.{call_text, chain_text, process_text, text_at};
ghost use Rattle.csp_print.specs.Names.{names_of};
ghost use Rattle.csp_print.specs.Shapes.{infix_of, position_of, replicator_text};
ghost use Rattle.csp_print.specs.Writing.{Writes};

use crate::event_sets::{push_event_set, push_pairs};
use crate::expressions::push_operand;
use crate::fields::push_fields;
use crate::marks::push_mark;
use crate::names::Names;
use crate::ranks::{ATOM, DISJUNCTION};
use crate::shapes::{Infix, Position, head_shape, infix_text, stands_bare};
use crate::told::{push_told_behind, push_told_whole};
use csp_events::{EventSet, RenamingPair};
use csp_expression::{Expr, Name};
use csp_term::{ChannelId, EquationId, Field, ReplicatedOperator, Term, TermForm};
use std::alloc::{AllocError, Allocator};

/// Puts the text of the term behind the string. It is an error where memory is refused.
#[cycle(term)]
pub fn push_term<A: Allocator + Copy>(
    names: &Names<'_, A>,
    term: &Term<A>,
    text: &mut String<A>,
) -> Result<(), AllocError>
    ensures { Writes result text.old text.new
        (process_text (names_of names.now) (process_of term.now)) }
{
    match term.form() {
        TermForm::Stop => push_mark("STOP", text),
        TermForm::Skip => push_mark("SKIP", text),
        TermForm::Omega => push_mark("_OMEGA", text),
        TermForm::Call(equation, arguments) => {
            push_call(names, *equation, arguments.as_slice(), text)
        }
        TermForm::Prefix(channel, fields, body) => {
            push_prefix(names, *channel, fields.as_slice(), body, text)
        }
        TermForm::Guard(condition, body) => push_guard(names, condition, body, text),
        TermForm::If(condition, first, second) => push_if(names, condition, first, second, text),
        TermForm::Binary(operator, left, right) => {
            push_chain(names, Infix::Operator(*operator), left, right, text)
        }
        TermForm::GeneralisedParallel(left, shared, right) => {
            push_generalised(names, left, shared, right, text)
        }
        TermForm::AlphabetisedParallel(left, own, other, right) => {
            push_alphabetised(names, left, own, other, right, text)
        }
        TermForm::Hiding(body, hidden) => push_hiding(names, body, hidden, text),
        TermForm::Renaming(body, pairs) => push_renaming(names, body, pairs.as_slice(), text),
        TermForm::Replicated(operator, name, set, body) => {
            push_replicated(names, *operator, *name, set, body, text)
        }
        TermForm::SlidingChoice(left, right) => {
            push_chain(names, Infix::Sliding, left, right, text)
        }
    }
}

// The term, in brackets where it does not stand there bare.
#[cycle(term)]
fn push_at<A: Allocator + Copy>(
    names: &Names<'_, A>,
    position: Position,
    term: &Term<A>,
    text: &mut String<A>,
) -> Result<(), AllocError>
    ensures { Writes result text.old text.new
        (text_at (position_of position) (names_of names.now) (process_of term.now)) }
{
    if stands_bare(position, head_shape(term)) {
        return push_term(names, term, text);
    }
    push_mark("(", text)?;
    push_term(names, term, text)?;
    push_mark(")", text)
}

fn push_call<A: Allocator + Copy>(
    names: &Names<'_, A>,
    equation: EquationId,
    arguments: &[Expr<A>],
    text: &mut String<A>,
) -> Result<(), AllocError>
    ensures { Writes result text.old text.new
        (call_text (names_of names.now) equation.0
        (all_told (names_of names.now) (to_expressions (expressions_of arguments.now)))) }
{
    match arguments.split_first() {
        Some((first, others)) => {
            names.push_equation(equation, text)?;
            push_mark("(", text)?;
            push_told_whole(names, first, text)?;
            push_told_behind(names, ",", DISJUNCTION, others, text)?;
            push_mark(")", text)
        }
        None => names.push_equation(equation, text),
    }
}

#[cycle(term)]
fn push_prefix<A: Allocator + Copy>(
    names: &Names<'_, A>,
    channel: ChannelId,
    fields: &[Field<A>],
    body: &Term<A>,
    text: &mut String<A>,
) -> Result<(), AllocError>
    ensures { Writes result text.old text.new
        (process_text (names_of names.now)
        (Prefix channel.0 (fields_of fields.now) (process_of body.now))) }
{
    names.push_channel(channel, text)?;
    push_fields(names, fields, text)?;
    push_mark(" -> ", text)?;
    push_at(names, Position::Operand, body, text)
}

#[cycle(term)]
fn push_guard<A: Allocator + Copy>(
    names: &Names<'_, A>,
    condition: &Expr<A>,
    body: &Term<A>,
    text: &mut String<A>,
) -> Result<(), AllocError>
    ensures { Writes result text.old text.new
        (process_text (names_of names.now)
        (Guard (expression_of condition.now) (process_of body.now))) }
{
    push_told_whole(names, condition, text)?;
    push_mark(" & ", text)?;
    push_at(names, Position::Operand, body, text)
}

#[cycle(term)]
fn push_if<A: Allocator + Copy>(
    names: &Names<'_, A>,
    condition: &Expr<A>,
    first: &Term<A>,
    second: &Term<A>,
    text: &mut String<A>,
) -> Result<(), AllocError>
    ensures { Writes result text.old text.new
        (process_text (names_of names.now)
        (If (expression_of condition.now) (process_of first.now) (process_of second.now))) }
{
    push_mark("if ", text)?;
    push_told_whole(names, condition, text)?;
    push_mark(" then ", text)?;
    push_term(names, first, text)?;
    push_mark(" else ", text)?;
    push_term(names, second, text)
}

// A chain goes on to the left with its own operator.
#[cycle(term)]
fn push_chain<A: Allocator + Copy>(
    names: &Names<'_, A>,
    operator: Infix,
    left: &Term<A>,
    right: &Term<A>,
    text: &mut String<A>,
) -> Result<(), AllocError>
    ensures { Writes result text.old text.new
        (chain_text (infix_of operator) (notation.shape (process_of left.now))
        (process_text (names_of names.now) (process_of left.now))
        (notation.shape (process_of right.now))
        (process_text (names_of names.now) (process_of right.now))) }
{
    push_at(names, Position::LeftOf(operator), left, text)?;
    push_mark(infix_text(operator), text)?;
    push_at(names, Position::Operand, right, text)
}

#[cycle(term)]
fn push_generalised<A: Allocator + Copy>(
    names: &Names<'_, A>,
    left: &Term<A>,
    shared: &EventSet<A>,
    right: &Term<A>,
    text: &mut String<A>,
) -> Result<(), AllocError>
    ensures { Writes result text.old text.new
        (process_text (names_of names.now)
        (GeneralisedParallel (process_of left.now) (event_set_of shared.now)
        (process_of right.now))) }
{
    push_at(names, Position::Operand, left, text)?;
    push_mark(" [| ", text)?;
    push_event_set(names, shared, text)?;
    push_mark(" |] ", text)?;
    push_at(names, Position::Operand, right, text)
}

#[cycle(term)]
fn push_alphabetised<A: Allocator + Copy>(
    names: &Names<'_, A>,
    left: &Term<A>,
    own: &EventSet<A>,
    other: &EventSet<A>,
    right: &Term<A>,
    text: &mut String<A>,
) -> Result<(), AllocError>
    ensures { Writes result text.old text.new
        (process_text (names_of names.now)
        (AlphabetisedParallel (process_of left.now) (event_set_of own.now) (event_set_of other.now)
        (process_of right.now))) }
{
    push_at(names, Position::Operand, left, text)?;
    push_mark(" [", text)?;
    push_event_set(names, own, text)?;
    push_mark(" || ", text)?;
    push_event_set(names, other, text)?;
    push_mark("] ", text)?;
    push_at(names, Position::Operand, right, text)
}

#[cycle(term)]
fn push_hiding<A: Allocator + Copy>(
    names: &Names<'_, A>,
    body: &Term<A>,
    hidden: &EventSet<A>,
    text: &mut String<A>,
) -> Result<(), AllocError>
    ensures { Writes result text.old text.new
        (process_text (names_of names.now)
        (Hiding (process_of body.now) (event_set_of hidden.now))) }
{
    push_at(names, Position::BeforeHiding, body, text)?;
    push_mark(" \\ ", text)?;
    push_event_set(names, hidden, text)
}

#[cycle(term)]
fn push_renaming<A: Allocator + Copy>(
    names: &Names<'_, A>,
    body: &Term<A>,
    pairs: &[RenamingPair<A>],
    text: &mut String<A>,
) -> Result<(), AllocError>
    ensures { Writes result text.old text.new
        (process_text (names_of names.now)
        (Renaming (process_of body.now) (renaming_pairs_of pairs.now))) }
{
    push_at(names, Position::BeforeRenaming, body, text)?;
    push_mark("[[", text)?;
    push_pairs(names, pairs, text)?;
    push_mark("]]", text)
}

#[cycle(term)]
fn push_replicated<A: Allocator + Copy>(
    names: &Names<'_, A>,
    operator: ReplicatedOperator,
    name: Name,
    set: &Expr<A>,
    body: &Term<A>,
    text: &mut String<A>,
) -> Result<(), AllocError>
    ensures { Writes result text.old text.new
        (process_text (names_of names.now)
        (replicated_process operator name.0 (expression_of set.now) (process_of body.now))) }
{
    push_mark(replicated_text(operator), text)?;
    names.push_bound(name, text)?;
    push_mark(":", text)?;
    push_operand(names, ATOM, set, text)?;
    push_mark(" @ ", text)?;
    push_term(names, body, text)
}

// How the operator over a set is written.
fn replicated_text(operator: ReplicatedOperator) -> &'static str
    ensures { result.now ≡ replicator_text operator }
{
    match operator {
        ReplicatedOperator::ExternalChoice => "[] ",
        ReplicatedOperator::InternalChoice => "|~| ",
        ReplicatedOperator::Interleaving => "||| ",
    }
}
