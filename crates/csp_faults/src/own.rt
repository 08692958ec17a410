//! What is to blame in a term's own parts.

ghost use Rattle.std.specs.Prelude.{◌≡◌, length, slice_get};
ghost use Rattle.theory_syntax.specs.Expression.{to_expressions};
ghost use Rattle.theory_syntax.specs.Operators.{replicated_process};
ghost use Rattle.theory_syntax.specs.Process.{AlphabetisedParallel, Call, Process};
ghost use Rattle.theory_faults.specs.Processes.{arguments_misfit, own_culprit};
ghost use Rattle.csp_events.specs.Events.{event_set_of};
ghost use Rattle.csp_expression.specs.Expression.{expression_of, expressions_of};
ghost use Rattle.csp_term.specs.Script.{script_of_parts};
ghost use Rattle.csp_term.specs.Term.{process_of};
ghost use Rattle.csp_faults.specs.Culprit.{Finds, found_of};

use crate::asked::{condition_culprit, members_culprit, no_choice};
use crate::culprit::Culprit;
use crate::events::event_set_culprit;
use crate::expressions::first_culprit;
use crate::fields::prefix_culprit;
use crate::renamings::renaming_culprit;
use csp_events::EventSet;
use csp_expression::Expr;
use csp_term::{
    AllocHandle, EquationId, Memory, Name, ReplicatedOperator, ScriptParts, Term, TermForm,
};

/// What is to blame in the term's own arguments, fields, sets, pairs and conditions, from left to right.
pub(crate) fn own_culprit<A: AllocHandle>(
    alloc: A,
    script: &ScriptParts<A>,
    term: &Term<A>,
) -> Result<Option<Culprit<A>>, Memory>
    ensures { Finds result (own_culprit (script_of_parts script.now) (process_of term.now)) }
{
    match term.form() {
        TermForm::Call(equation, arguments) => call_culprit(alloc, script, *equation, arguments),
        TermForm::Prefix(channel, fields, _) => prefix_culprit(alloc, script, *channel, fields),
        TermForm::Guard(condition, _) => condition_culprit(alloc, &script.types, condition),
        TermForm::If(condition, _, _) => condition_culprit(alloc, &script.types, condition),
        TermForm::GeneralisedParallel(_, shared, _) => event_set_culprit(alloc, script, shared),
        TermForm::AlphabetisedParallel(_, own, other, _) => {
            alphabets_culprit(alloc, script, own, other)
        }
        TermForm::Hiding(_, hidden) => event_set_culprit(alloc, script, hidden),
        TermForm::Renaming(_, pairs) => renaming_culprit(alloc, script, pairs),
        TermForm::Replicated(operator, name, set, _) => {
            replicated_culprit(alloc, script, *operator, *name, set)
        }
        TermForm::Stop => Ok(None),
        TermForm::Skip => Ok(None),
        TermForm::Omega => Ok(None),
        TermForm::Binary(_, _, _) => Ok(None),
        TermForm::SlidingChoice(_, _) => Ok(None),
    }
}

/// What is to blame in a call.
fn call_culprit<A: AllocHandle>(
    alloc: A,
    script: &ScriptParts<A>,
    equation: EquationId,
    arguments: &[Expr<A>],
) -> Result<Option<Culprit<A>>, Memory>
    ensures { Finds result (own_culprit (script_of_parts script.now)
        (Call equation.0 (to_expressions (expressions_of arguments.now)))) }
{
    let found = first_culprit(alloc, &script.types, arguments)?;
    if found.is_some() {
        return Ok(found);
    }
    Ok(arguments_misfit(script, equation, arguments))
}

/// That there is no such equation, or it has another number of parameters.
fn arguments_misfit<A: AllocHandle>(
    script: &ScriptParts<A>,
    equation: EquationId,
    arguments: &[Expr<A>],
) -> Option<Culprit<A>>
    ensures { found_of result ≡ arguments_misfit (length arguments.now)
        (slice_get (script_of_parts script.now).equations equation.0) }
{
    let Some(called) = script.equations.get(equation.0 as usize) else {
        return Some(Culprit::Misfit);
    };
    if called.parameters.len() == arguments.len() {
        None
    } else {
        Some(Culprit::Misfit)
    }
}

/// What is to blame in the sets of both sides.
fn alphabets_culprit<A: AllocHandle>(
    alloc: A,
    script: &ScriptParts<A>,
    own: &EventSet<A>,
    other: &EventSet<A>,
) -> Result<Option<Culprit<A>>, Memory>
    ensures { (left : Process) (right : Process) → Finds result
        (own_culprit (script_of_parts script.now)
        (AlphabetisedParallel left (event_set_of own.now) (event_set_of other.now) right)) }
{
    let found = event_set_culprit(alloc, script, own)?;
    match found {
        Some(culprit) => Ok(Some(culprit)),
        None => event_set_culprit(alloc, script, other),
    }
}

/// What is to blame in the set of a replicated operator. An internal choice needs a value in it.
fn replicated_culprit<A: AllocHandle>(
    alloc: A,
    script: &ScriptParts<A>,
    operator: ReplicatedOperator,
    name: Name,
    set: &Expr<A>,
) -> Result<Option<Culprit<A>>, Memory>
    ensures { (body : Process)
        → Finds result (own_culprit (script_of_parts script.now)
        (replicated_process operator name.0 (expression_of set.now) body)) }
{
    let found = members_culprit(alloc, &script.types, set)?;
    if found.is_some() {
        return Ok(found);
    }
    match operator {
        ReplicatedOperator::InternalChoice => no_choice(alloc, &script.types, name, set),
        ReplicatedOperator::ExternalChoice => Ok(None),
        ReplicatedOperator::Interleaving => Ok(None),
    }
}
