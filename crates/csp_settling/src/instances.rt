//! The chain of the instances of a replicated operator.

ghost use Rattle.std.specs.Prelude.{◌≡◌, ◌∷◌, [], IfOk, Ok};
ghost use Rattle.theory_syntax.specs.Operators.{binary_process};
ghost use Rattle.theory_semantics.specs.Meaning.Chains.{left_grouped};
ghost use Rattle.theory_semantics.specs.Meaning.Events.{elements, instances};
ghost use Rattle.theory_semantics.specs.Meaning.Substitution.{put};
ghost use Rattle.csp_value.specs.Value.{value_of, values_of};
ghost use Rattle.csp_expression.specs.Evaluation.{table_of};
ghost use Rattle.csp_expression.specs.Expression.{expression_of};
ghost use Rattle.csp_term.specs.Term.{process_of};
ghost use Rattle.csp_settling.specs.Settling.{IsChain};

use csp_expression::{Expr, NoValue, TypeTable};
use csp_term::{Memory, Name, ProcessOperator, Term, TermForm, bind};
use csp_value::Value;
use std::alloc::Allocator;

/// The chain under the operator of one instance for each value of the set, grouped to the left; `None` where there is no
/// such set, or nothing in it. `Memory` says that there is no room.
pub(crate) fn chain<A: Allocator + Copy>(
    alloc: A,
    types: &TypeTable<A>,
    operator: ProcessOperator,
    name: Name,
    set: &Expr<A>,
    body: &Term<A>,
) -> Result<Option<Term<A>>, Memory>
    ensures { IfOk result (IsChain (binary_process operator) name.0 (process_of body.now)
        (elements (table_of types.now) (expression_of set.now))) }
{
    let seen = match set.look(alloc, types, &[]) {
        Ok(seen) => seen,
        Err(NoValue::Memory) => return Err(Memory),
        Err(NoValue::Cause(_)) => return Ok(None),
    };
    let Value::Set(members) = seen.value() else {
        return Ok(None);
    };
    chain_of(alloc, operator, name, members.members(), body)
}

/// The chain of the instances of these values, if there are any.
fn chain_of<A: Allocator + Copy>(
    alloc: A,
    operator: ProcessOperator,
    name: Name,
    values: &[Value<A>],
    body: &Term<A>,
) -> Result<Option<Term<A>>, Memory>
    ensures { IfOk result (IsChain (binary_process operator) name.0 (process_of body.now)
        (Ok (values_of values.now))) }
{
    let Some((first, others)) = values.split_first() else {
        return Ok(None);
    };
    let first = instance(alloc, name, first, body)?;
    let chain = chain_behind(alloc, operator, name, first, others, body)?;
    Ok(Some(chain))
}

/// The chain of the first term and the instances of the others.
fn chain_behind<A: Allocator + Copy>(
    alloc: A,
    operator: ProcessOperator,
    name: Name,
    first: Term<A>,
    others: &[Value<A>],
    body: &Term<A>,
) -> Result<Term<A>, Memory>
    ensures { IfOk result (λ t. process_of t ≡ left_grouped (binary_process operator)
        (process_of first) (instances name.0 (process_of body.now) (values_of others.now))) }
{
    let mut chain = first;
    for value in others {
        let next = instance(alloc, name, value, body)?;
        chain = Term::new(alloc, TermForm::Binary(operator, chain, next))?;
    }
    Ok(chain)
}

/// The body with the value put in for the name.
fn instance<A: Allocator + Copy>(
    alloc: A,
    name: Name,
    value: &Value<A>,
    body: &Term<A>,
) -> Result<Term<A>, Memory>
    ensures { IfOk result (λ t. process_of t ≡ put ((name.0, value_of value.now) ∷ [])
        (process_of body.now)) }
{
    let bindings = bind(alloc, name, value, &[])?;
    body.put_in(alloc, &bindings)
}
