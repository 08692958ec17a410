//! The ways of `[] x:S @ P`, of `|~| x:S @ P` and of `||| x:S @ P`: each step is one of the chain of the instances.

ghost use Rattle.std.specs.Prelude.{◌≡◌, ◌∷◌, ℕ, [], IfOk};
ghost use Rattle.theory_syntax.specs.Expression.{Expression};
ghost use Rattle.theory_syntax.specs.Operators.{binary_process, replicated_process};
ghost use Rattle.theory_syntax.specs.Process.{Process, Script};
ghost use Rattle.theory_semantics.specs.Meaning.Events.{elements, instances, members_of};
ghost use Rattle.theory_semantics.specs.Meaning.Substitution.{put};
ghost use Rattle.csp_value.specs.Value.{value_of, values_of};
ghost use Rattle.csp_expression.specs.Evaluation.{table_of};
ghost use Rattle.csp_expression.specs.Expression.{expression_of};
ghost use Rattle.csp_term.specs.Script.{script_of_parts};
ghost use Rattle.csp_term.specs.Term.{process_of};
ghost use Rattle.theory_origins.specs.Telling.{instance_chain};
ghost use Rattle.csp_moves.specs.Chains.{AreMembersIfAny, IsChainOf, chain_process, linked};
ghost use Rattle.csp_moves.specs.Way.{AreFoundIn, lent_action};

use crate::way::{LentAction, LentPassage, Part, Way, no_ways, one_way};
use csp_expression::{Binding, Expr, NoValue, TypeTable};
use csp_term::{
    AllocHandle, Memory, Name, ProcessOperator, ReplicatedOperator, ScriptParts, Term, TermForm,
};
use csp_value::{SetOf, Value};

/// A replicated operator with its name, its set and its process.
#[derive(Clone, Copy)]
pub struct Replicated<'t, A: AllocHandle> {
    /// The operator between the instances.
    pub operator: ReplicatedOperator,
    /// What stands for each value in turn.
    pub name: Name,
    /// The set of the values.
    pub set: &'t Expr<A>,
    /// The process for each value.
    pub body: &'t Term<A>,
}

/// The members of the value, if it is a set.
fn members_of_value<A: AllocHandle>(value: Value<A>) -> Option<SetOf<A>>
    ensures { AreMembersIfAny result (members_of (value_of value)) }
{
    match value {
        Value::Set(members) => Some(members),
        _ => None,
    }
}

/// The members of the set, if it has a value and that is one.
fn members_if_any<A: AllocHandle>(
    alloc: A,
    types: &TypeTable<A>,
    set: &Expr<A>,
) -> Result<Option<SetOf<A>>, Memory>
    ensures { IfOk result (λ found. AreMembersIfAny found
        (elements (table_of types.now) (expression_of set.now))) }
{
    match set.find_value(alloc, types) {
        Ok(value) => Ok(members_of_value(value)),
        Err(NoValue::Memory) => Err(Memory),
        Err(NoValue::Cause(_)) => Ok(None),
    }
}

/// The operator of two processes.
fn between(operator: ReplicatedOperator) -> ProcessOperator
    ensures { (p q : Process) → binary_process result p q ≡ linked operator p q }
{
    match operator {
        ReplicatedOperator::ExternalChoice => ProcessOperator::ExternalChoice,
        ReplicatedOperator::InternalChoice => ProcessOperator::InternalChoice,
        ReplicatedOperator::Interleaving => ProcessOperator::Interleaving,
    }
}

/// The chain of no instance.
fn empty_chain<A: AllocHandle>(alloc: A, operator: ReplicatedOperator) -> Result<Term<A>, Memory>
    ensures { IfOk result (λ t. process_of t ≡ instance_chain operator []) }
{
    match operator {
        ReplicatedOperator::ExternalChoice => Term::new(alloc, TermForm::Stop),
        ReplicatedOperator::InternalChoice => Term::new(alloc, TermForm::Stop),
        ReplicatedOperator::Interleaving => Term::new(alloc, TermForm::Skip),
    }
}

/// The process with the value put in for the name.
fn instance<A: AllocHandle>(
    alloc: A,
    process: Replicated<'_, A>,
    value: &Value<A>,
) -> Result<Term<A>, Memory>
    ensures { IfOk result (λ t. process_of t ≡ put ((process.entry.name.0, value_of value.now) ∷ [])
        (process_of process.entry.body.now)) }
{
    let name = process.name;
    process.body.put_in(alloc, &[Binding { name, value }])
}

/// The chain of the instances of the values, grouped to the left.
fn chain<A: AllocHandle>(
    alloc: A,
    process: Replicated<'_, A>,
    first: &Value<A>,
    others: &[Value<A>],
) -> Result<Term<A>, Memory>
    ensures { IfOk result (λ t. process_of t ≡ instance_chain process.entry.operator
        (instances process.entry.name.0 (process_of process.entry.body.now)
        (value_of first.now ∷ values_of others.now))) }
{
    let operator = between(process.operator);
    let mut chain = instance(alloc, process, first)?;
    for value in others {
        let next = instance(alloc, process, value)?;
        chain = Term::new(alloc, TermForm::Binary(operator, chain, next))?;
    }
    Ok(chain)
}

fn chain_of_values<A: AllocHandle>(
    alloc: A,
    process: Replicated<'_, A>,
    values: &[Value<A>],
) -> Result<Term<A>, Memory>
    ensures { IfOk result (λ t. process_of t ≡ instance_chain process.entry.operator
        (instances process.entry.name.0 (process_of process.entry.body.now)
        (values_of values.now))) }
{
    match values.split_first() {
        None => empty_chain(alloc, process.operator),
        Some((first, others)) => chain(alloc, process, first, others),
    }
}

/// The chain of the instances, whatever its size, if the set has a value. `Memory` says that there is no room for it.
pub fn chain_of<A: AllocHandle>(
    alloc: A,
    script: &ScriptParts<A>,
    process: Replicated<'_, A>,
) -> Result<Option<Term<A>>, Memory>
    ensures { IfOk result (λ chain. IsChainOf process.entry.operator process.entry.name.0
        (process_of process.entry.body.now)
        (elements (table_of script.now.types) (expression_of process.entry.set.now))
        (chain_process chain)) }
{
    let found = members_if_any(alloc, &script.types, process.set)?;
    let Some(members) = found else {
        return Ok(None);
    };
    Ok(Some(chain_of_values(alloc, process, members.members())?))
}

/// The ways in which a replicated operator of which this is the chain may do the step. `Memory` says that there is no
/// room for them.
pub fn replicated_ways<'t, A: AllocHandle>(
    alloc: A,
    chain: &'t Option<Term<A>>,
    action: LentAction<'t, A>,
    target: &'t Term<A>,
) -> Result<Vec<Way<'t, A>, A>, Memory>
    ensures { (s : Script) (op : ReplicatedOperator) (n : ℕ) (e : Expression) (p : Process)
        → IsChainOf op n p (elements s.types e) (chain_process chain.now)
        → IfOk result (AreFoundIn s (replicated_process op n e p) (lent_action action.entry)
        (process_of target.now)) }
{
    let Some(term) = chain else {
        return no_ways(alloc);
    };
    let part = Part {
        process: term,
        action,
        target: Some(target),
    };
    one_way(alloc, Way::Through(LentPassage::InChain, part))
}
