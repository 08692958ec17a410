//! The ways of conditions and guards.

ghost use Rattle.std.specs.Prelude.{◌≡◌, ◌∷◌, [], IfOk, Some, cond};
ghost use Rattle.theory_syntax.specs.Process.{Guard, If};
ghost use Rattle.theory_semantics.specs.Meaning.Events.{condition, truth_of};
ghost use Rattle.csp_value.specs.Value.{value_of};
ghost use Rattle.csp_expression.specs.Agreement.{AgreesWith};
ghost use Rattle.csp_expression.specs.Evaluation.{table_of};
ghost use Rattle.csp_expression.specs.Expression.{expression_of};
ghost use Rattle.csp_term.specs.Script.{script_of_parts};
ghost use Rattle.csp_term.specs.Term.{process_of};
ghost use Rattle.theory_origins.specs.Origin.{Left, OnBranch, Right, UnderGuard};
ghost use Rattle.theory_origins.specs.Ways.{Through, part};
ghost use Rattle.csp_moves.specs.Branch.{IsTruthOf};
ghost use Rattle.csp_moves.specs.Way.{AreFoundIn, lent_action, ways_of};

use crate::passage::Side;
use crate::way::{LentAction, LentPassage, Part, Way, no_ways, one_way, through_branch};
use csp_expression::{Cause, Expr, NoValue, TypeTable};
use csp_term::{AllocHandle, Memory, ScriptParts, Term};
use csp_value::Value;

/// The truth value, if it is one.
fn truth_of<A: AllocHandle>(value: &Value<A>) -> Result<bool, NoValue>
    ensures { AgreesWith (λ b. b) result (truth_of (value_of value.now)) }
{
    match value {
        Value::Bool(truth) => Ok(*truth),
        _ => Err(NoValue::Cause(Cause::Kind)),
    }
}

/// Whether the condition is true, or the first cause for which that has no answer.
fn condition<A: AllocHandle>(
    alloc: A,
    types: &TypeTable<A>,
    test: &Expr<A>,
) -> Result<bool, NoValue>
    ensures { AgreesWith (λ b. b) result (condition (table_of types.now) (expression_of test.now)) }
{
    let value = test.find_value(alloc, types)?;
    truth_of(&value)
}

/// Whether the condition is true, if it is true or false.
fn truth<A: AllocHandle>(
    alloc: A,
    types: &TypeTable<A>,
    test: &Expr<A>,
) -> Result<Option<bool>, Memory>
    ensures { IfOk result (λ truth. IsTruthOf truth
        (condition (table_of types.now) (expression_of test.now))) }
{
    match condition(alloc, types, test) {
        Ok(holds) => Ok(Some(holds)),
        Err(NoValue::Memory) => Err(Memory),
        Err(NoValue::Cause(_)) => Ok(None),
    }
}

/// The way to the branch that is picked.
fn to_branch<'t, A: AllocHandle>(
    alloc: A,
    holds: bool,
    first: &'t Term<A>,
    second: &'t Term<A>,
    action: LentAction<'t, A>,
    target: &'t Term<A>,
) -> Result<Vec<Way<'t, A>, A>, Memory>
    ensures { IfOk result (λ ways. ways_of ways ≡ cond holds
        (Through (OnBranch Left)
        (part (process_of first.now) (lent_action action.entry) (Some (process_of target.now)))
        ∷ []) (Through (OnBranch Right)
        (part (process_of second.now) (lent_action action.entry) (Some (process_of target.now)))
        ∷ [])) }
{
    if holds {
        return one_way(
            alloc,
            through_branch(Side::Left, first, action, Some(target)),
        );
    }
    one_way(
        alloc,
        through_branch(Side::Right, second, action, Some(target)),
    )
}

/// The way to the guarded body, where it may go on.
fn to_body<'t, A: AllocHandle>(
    alloc: A,
    holds: bool,
    body: &'t Term<A>,
    action: LentAction<'t, A>,
    target: &'t Term<A>,
) -> Result<Vec<Way<'t, A>, A>, Memory>
    ensures { IfOk result (λ ways. ways_of ways ≡ cond holds
        (Through UnderGuard (part (process_of body.now) (lent_action action.entry)
        (Some (process_of target.now))) ∷ []) []) }
{
    if holds {
        let part = Part {
            process: body,
            action,
            target: Some(target),
        };
        return one_way(alloc, Way::Through(LentPassage::UnderGuard, part));
    }
    no_ways(alloc)
}

/// A conditional process and the script that it is of.
#[derive(Clone, Copy)]
pub struct Conditional<'t, A: AllocHandle> {
    /// The condition.
    pub test: &'t Expr<A>,
    /// The process where it is true.
    pub first: &'t Term<A>,
    /// The process where it is false.
    pub second: &'t Term<A>,
}

/// The ways in which `if e then P else Q` may do the step. `Memory` says that there is no room for them.
pub fn conditional_ways<'t, A: AllocHandle>(
    alloc: A,
    script: &ScriptParts<A>,
    process: Conditional<'t, A>,
    action: LentAction<'t, A>,
    target: &'t Term<A>,
) -> Result<Vec<Way<'t, A>, A>, Memory>
    ensures { IfOk result (AreFoundIn (script_of_parts script.now)
        (If (expression_of process.entry.test.now) (process_of process.entry.first.now)
        (process_of process.entry.second.now)) (lent_action action.entry) (process_of target.now)) }
{
    let found = truth(alloc, &script.types, process.test)?;
    let Some(holds) = found else {
        return no_ways(alloc);
    };
    to_branch(alloc, holds, process.first, process.second, action, target)
}

/// The ways in which `e & P` may do the step. `Memory` says that there is no room for them.
pub fn guard_ways<'t, A: AllocHandle>(
    alloc: A,
    script: &ScriptParts<A>,
    test: &Expr<A>,
    body: &'t Term<A>,
    action: LentAction<'t, A>,
    target: &'t Term<A>,
) -> Result<Vec<Way<'t, A>, A>, Memory>
    ensures { IfOk result (AreFoundIn (script_of_parts script.now)
        (Guard (expression_of test.now) (process_of body.now)) (lent_action action.entry)
        (process_of target.now)) }
{
    let found = truth(alloc, &script.types, test)?;
    let Some(holds) = found else {
        return no_ways(alloc);
    };
    to_body(alloc, holds, body, action, target)
}
