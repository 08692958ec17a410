//! Processes of two operands, where the values are put into one of them already. So each call has one operand to go
//! down.

ghost use Rattle.std.specs.Prelude.{◌≡◌, IfOk};
ghost use Rattle.theory_syntax.specs.Process.{AlphabetisedParallel, GeneralisedParallel, If, SlidingChoice};
ghost use Rattle.theory_syntax.specs.Operators.{binary_process};
ghost use Rattle.theory_semantics.specs.Meaning.Substitution.{put, put_event_set, put_expression};
ghost use Rattle.csp_events.specs.Events.{event_set_of};
ghost use Rattle.csp_expression.specs.Bindings.{bindings_of};
ghost use Rattle.csp_expression.specs.Expression.{expression_of};
ghost use Rattle.csp_term.specs.Term.{process_of, process_of_form};

use crate::term::{Term, TermForm};
use csp_events::EventSet;
use csp_expression::{Binding, Expr};
use csp_value::Memory;
use std::alloc::Allocator;
use theory_syntax::ProcessOperator;

/// The choice by the condition with the values put in. They are in the first process already.
#[cycle(put_term)]
pub(crate) fn put_in_conditional<A: Allocator + Copy>(
    alloc: A,
    second: &Term<A>,
    first: Term<A>,
    condition: &Expr<A>,
    bindings: &[Binding<'_, A>],
) -> Result<TermForm<A>, Memory>
    ensures { IfOk result (λ form. process_of_form form
        ≡ If (put_expression (bindings_of bindings.now) (expression_of condition.now))
        (process_of first) (put (bindings_of bindings.now) (process_of second.now))) }
{
    let second = second.put_in(alloc, bindings)?;
    Ok(TermForm::If(condition.put_in(alloc, bindings)?, first, second))
}

/// The two operands under their operator with the values put in. They are in the left one already.
#[cycle(put_term)]
pub(crate) fn put_in_binary<A: Allocator + Copy>(
    alloc: A,
    operator: ProcessOperator,
    right: &Term<A>,
    left: Term<A>,
    bindings: &[Binding<'_, A>],
) -> Result<TermForm<A>, Memory>
    ensures { IfOk result (λ form. process_of_form form
        ≡ binary_process operator (process_of left)
        (put (bindings_of bindings.now) (process_of right.now))) }
{
    Ok(TermForm::Binary(operator, left, right.put_in(alloc, bindings)?))
}

/// The two processes with the values put in, and into the set of the events that they share. They are in the left one
/// already.
#[cycle(put_term)]
pub(crate) fn put_in_generalised<A: Allocator + Copy>(
    alloc: A,
    right: &Term<A>,
    left: Term<A>,
    shared: &EventSet<A>,
    bindings: &[Binding<'_, A>],
) -> Result<TermForm<A>, Memory>
    ensures { IfOk result (λ form. process_of_form form
        ≡ GeneralisedParallel (process_of left)
        (put_event_set (bindings_of bindings.now) (event_set_of shared.now))
        (put (bindings_of bindings.now) (process_of right.now))) }
{
    let right = right.put_in(alloc, bindings)?;
    Ok(TermForm::GeneralisedParallel(left, shared.put_in(alloc, bindings)?, right))
}

/// The two processes with the values put in, and into the set of each. They are in the left one already.
#[cycle(put_term)]
pub(crate) fn put_in_alphabetised<A: Allocator + Copy>(
    alloc: A,
    right: &Term<A>,
    left: Term<A>,
    own: &EventSet<A>,
    other: &EventSet<A>,
    bindings: &[Binding<'_, A>],
) -> Result<TermForm<A>, Memory>
    ensures { IfOk result (λ form. process_of_form form
        ≡ AlphabetisedParallel (process_of left)
        (put_event_set (bindings_of bindings.now) (event_set_of own.now))
        (put_event_set (bindings_of bindings.now) (event_set_of other.now))
        (put (bindings_of bindings.now) (process_of right.now))) }
{
    let right = right.put_in(alloc, bindings)?;
    let own = own.put_in(alloc, bindings)?;
    Ok(TermForm::AlphabetisedParallel(left, own, other.put_in(alloc, bindings)?, right))
}

/// The sliding choice with the values put in. They are in the left process already.
#[cycle(put_term)]
pub(crate) fn put_in_sliding<A: Allocator + Copy>(
    alloc: A,
    right: &Term<A>,
    left: Term<A>,
    bindings: &[Binding<'_, A>],
) -> Result<TermForm<A>, Memory>
    ensures { IfOk result (λ form. process_of_form form
        ≡ SlidingChoice (process_of left) (put (bindings_of bindings.now) (process_of right.now))) }
{
    Ok(TermForm::SlidingChoice(left, right.put_in(alloc, bindings)?))
}
