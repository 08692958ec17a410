//! The processes that a rule for a term looks at.

ghost use Rattle.std.specs.Prelude.{◌≡◌, ◌∷◌, [], IfOk, map};
ghost use Rattle.theory_syntax.specs.Operators.{binary_process, replicated_process};
ghost use Rattle.theory_syntax.specs.Process.{Script};
ghost use Rattle.theory_semantics.specs.Meaning.Events.{condition, instances};
ghost use Rattle.theory_faults.specs.Processes.{looked_at, only_one, picked};
ghost use Rattle.csp_value.specs.Value.{values_of};
ghost use Rattle.csp_expression.specs.Evaluation.{table_of};
ghost use Rattle.csp_expression.specs.Expression.{expression_of};
ghost use Rattle.csp_term.specs.Script.{script_of_parts};
ghost use Rattle.csp_term.specs.Term.{process_of};
ghost use Rattle.csp_faults.specs.Parts.{AreParts};

use crate::asked::{members, truth};
use csp_expression::{Binding, Expr};
use csp_term::{
    AllocHandle, Memory, Name, ProcessOperator, ReplicatedOperator, ScriptParts, Term, TermForm,
};
use csp_value::Value;

/// Copies of the processes that a rule for the term looks at, the left one first.
pub(crate) fn looked_at<A: AllocHandle>(
    alloc: A,
    script: &ScriptParts<A>,
    term: &Term<A>,
) -> Result<Vec<Term<A>, A>, Memory>
    ensures { AreParts result (looked_at (script_of_parts script.now) (process_of term.now)) }
{
    match term.form() {
        TermForm::Guard(condition, body) => guarded(alloc, script, condition, body),
        TermForm::If(condition, first, second) => branch(alloc, script, condition, first, second),
        TermForm::Binary(operator, left, right) => sides(alloc, *operator, left, right),
        TermForm::GeneralisedParallel(left, _, right) => both(alloc, left, right),
        TermForm::AlphabetisedParallel(left, _, _, right) => both(alloc, left, right),
        TermForm::Hiding(body, _) => alone(alloc, body),
        TermForm::Renaming(body, _) => alone(alloc, body),
        TermForm::Replicated(operator, name, set, body) => {
            replicated(alloc, script, *operator, *name, set, body)
        }
        TermForm::SlidingChoice(left, right) => both(alloc, left, right),
        TermForm::Stop => Ok(Vec::new(alloc)),
        TermForm::Skip => Ok(Vec::new(alloc)),
        TermForm::Omega => Ok(Vec::new(alloc)),
        TermForm::Call(_, _) => Ok(Vec::new(alloc)),
        TermForm::Prefix(_, _, _) => Ok(Vec::new(alloc)),
    }
}

/// The one process.
fn alone<A: AllocHandle>(alloc: A, body: &Term<A>) -> Result<Vec<Term<A>, A>, Memory>
    ensures { AreParts result (process_of body.now ∷ []) }
{
    let mut parts = Vec::new(alloc);
    parts.push(body.try_copy(alloc)?)?;
    Ok(parts)
}

/// Both processes.
fn both<A: AllocHandle>(
    alloc: A,
    left: &Term<A>,
    right: &Term<A>,
) -> Result<Vec<Term<A>, A>, Memory>
    ensures { AreParts result (process_of left.now ∷ process_of right.now ∷ []) }
{
    let mut parts = Vec::new(alloc);
    parts.push(left.try_copy(alloc)?)?;
    parts.push(right.try_copy(alloc)?)?;
    Ok(parts)
}

/// The process where the condition is true.
fn guarded<A: AllocHandle>(
    alloc: A,
    script: &ScriptParts<A>,
    test: &Expr<A>,
    body: &Term<A>,
) -> Result<Vec<Term<A>, A>, Memory>
    ensures { AreParts result (picked
        (condition (table_of script.now.types) (expression_of test.now)) (process_of body.now ∷ [])
        []) }
{
    match truth(alloc, &script.types, test)? {
        Some(true) => alone(alloc, body),
        Some(false) => Ok(Vec::new(alloc)),
        None => Ok(Vec::new(alloc)),
    }
}

/// The process that the condition picks.
fn branch<A: AllocHandle>(
    alloc: A,
    script: &ScriptParts<A>,
    test: &Expr<A>,
    first: &Term<A>,
    second: &Term<A>,
) -> Result<Vec<Term<A>, A>, Memory>
    ensures { AreParts result (picked
        (condition (table_of script.now.types) (expression_of test.now)) (process_of first.now ∷ [])
        (process_of second.now ∷ [])) }
{
    match truth(alloc, &script.types, test)? {
        Some(true) => alone(alloc, first),
        Some(false) => alone(alloc, second),
        None => Ok(Vec::new(alloc)),
    }
}

/// The sides that the operator looks at.
fn sides<A: AllocHandle>(
    alloc: A,
    operator: ProcessOperator,
    left: &Term<A>,
    right: &Term<A>,
) -> Result<Vec<Term<A>, A>, Memory>
    ensures { (script : Script) → AreParts result
        (looked_at script (binary_process operator (process_of left.now) (process_of right.now))) }
{
    match operator {
        ProcessOperator::ExternalChoice => both(alloc, left, right),
        ProcessOperator::InternalChoice => Ok(Vec::new(alloc)),
        ProcessOperator::Sequential => alone(alloc, left),
        ProcessOperator::Interleaving => both(alloc, left, right),
        ProcessOperator::Interrupt => both(alloc, left, right),
    }
}

/// The instances of a replicated operator: of an internal choice the one, if there is one alone.
fn replicated<A: AllocHandle>(
    alloc: A,
    script: &ScriptParts<A>,
    operator: ReplicatedOperator,
    name: Name,
    set: &Expr<A>,
    body: &Term<A>,
) -> Result<Vec<Term<A>, A>, Memory>
    ensures { AreParts result (looked_at (script_of_parts script.now)
        (replicated_process operator name.0 (expression_of set.now) (process_of body.now))) }
{
    let values = members(alloc, &script.types, set)?;
    match operator {
        ReplicatedOperator::ExternalChoice => instances(alloc, name, body, &values),
        ReplicatedOperator::InternalChoice => only_one(alloc, name, body, &values),
        ReplicatedOperator::Interleaving => instances(alloc, name, body, &values),
    }
}

/// The instance of the value, if there is one alone.
fn only_one<A: AllocHandle>(
    alloc: A,
    name: Name,
    body: &Term<A>,
    values: &[Value<A>],
) -> Result<Vec<Term<A>, A>, Memory>
    ensures { AreParts result (only_one
        (instances name.0 (process_of body.now) (values_of values.now))) }
{
    if values.len() == 1 {
        instances(alloc, name, body, values)
    } else {
        Ok(Vec::new(alloc))
    }
}

/// The body with each of the values put in for the name.
fn instances<A: AllocHandle>(
    alloc: A,
    name: Name,
    body: &Term<A>,
    values: &[Value<A>],
) -> Result<Vec<Term<A>, A>, Memory>
    ensures { AreParts result (instances name.0 (process_of body.now) (values_of values.now)) }
{
    let mut parts = Vec::new(alloc);
    for value in values {
        let bindings = [Binding { name, value }];
        parts.push(body.put_in(alloc, &bindings)?)?;
    }
    Ok(parts)
}
