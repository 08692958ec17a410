//! The truth of a condition.

ghost use Rattle.std.specs.Prelude.{IfOk, Ok};
ghost use Rattle.theory_semantics.specs.Meaning.Events.{condition, truth_of};
ghost use Rattle.csp_value.specs.Value.{value_of};
ghost use Rattle.csp_expression.specs.Evaluation.{table_of};
ghost use Rattle.theory_semantics.specs.Meaning.Substitution.{put_expression};
ghost use Rattle.csp_expression.specs.Bindings.{bindings_of};
ghost use Rattle.csp_expression.specs.Expression.{expression_of};
ghost use Rattle.csp_settling.specs.Arguments.{Decides};
ghost use Rattle.csp_settling.specs.Settling.{IsTruth};

use csp_expression::{Binding, Expr, NoValue, TypeTable};
use csp_term::{Cause, Memory};
use csp_value::Value;
use std::alloc::Allocator;

/// Whether the condition with the values put in is true, or the first cause.
pub fn condition<'e, A: Allocator + Copy>(
    alloc: A,
    types: &TypeTable<A>,
    bindings: &[Binding<'e, A>],
    test: &'e Expr<A>,
) -> Result<bool, NoValue>
    ensures { Decides result (condition (table_of types.now)
        (put_expression (bindings_of bindings.now) (expression_of test.now))) }
{
    let seen = test.look(alloc, types, bindings)?;
    truth_of(seen.value())
}

/// What is told of the truth of a condition.
#[derive(Clone, Copy)]
pub(crate) enum Decision {
    /// It is true.
    Holds,
    /// It is false.
    Fails,
    /// It has no value.
    Faulty,
}

/// The truth of the condition. `Memory` says that there is no room to tell.
pub(crate) fn decide<A: Allocator + Copy>(
    alloc: A,
    types: &TypeTable<A>,
    test: &Expr<A>,
) -> Result<Decision, Memory>
    ensures { IfOk result (IsTruth (condition (table_of types.now) (expression_of test.now))) }
{
    match condition(alloc, types, &[], test) {
        Ok(holds) => Ok(told(holds)),
        Err(NoValue::Memory) => Err(Memory),
        Err(NoValue::Cause(_)) => Ok(Decision::Faulty),
    }
}

/// The decision by a truth value.
fn told(holds: bool) -> Decision
    ensures { IsTruth (Ok holds) result }
{
    if holds {
        Decision::Holds
    } else {
        Decision::Fails
    }
}

/// The truth value, if it is one.
fn truth_of<A: Allocator + Copy>(value: &Value<A>) -> Result<bool, NoValue>
    ensures { Decides result (truth_of (value_of value.now)) }
{
    match value {
        Value::Bool(truth) => Ok(*truth),
        _ => Err(NoValue::Cause(Cause::Kind)),
    }
}
