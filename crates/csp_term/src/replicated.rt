//! Processes for each value of a set.

ghost use Rattle.std.specs.Prelude.{◌≡◌, IfOk};
ghost use Rattle.theory_syntax.specs.Operators.{replicated_process};
ghost use Rattle.theory_semantics.specs.Meaning.Substitution.{put};
ghost use Rattle.csp_expression.specs.Bindings.{bindings_of};
ghost use Rattle.csp_expression.specs.Expression.{expression_of};
ghost use Rattle.csp_term.specs.Term.{process_of, process_of_form};

use crate::substitution::without;
use crate::term::{Term, TermForm};
use csp_expression::{Binding, Expr, Name};
use csp_value::Memory;
use std::alloc::Allocator;
use theory_syntax::ReplicatedOperator;

/// The replicated process with the values put in. Its name hides an outer one in the body, and not in the set.
#[cycle(put_term)]
pub(crate) fn put_in_replicated<A: Allocator + Copy>(
    alloc: A,
    operator: ReplicatedOperator,
    name: Name,
    body: &Term<A>,
    set: &Expr<A>,
    bindings: &[Binding<'_, A>],
) -> Result<TermForm<A>, Memory>
    ensures { IfOk result (λ form. process_of_form form
        ≡ put (bindings_of bindings.now)
        (replicated_process operator name.0 (expression_of set.now) (process_of body.now))) }
{
    let left = without(alloc, name, bindings)?;
    let body = body.put_in(alloc, &left)?;
    Ok(TermForm::Replicated(operator, name, set.put_in(alloc, bindings)?, body))
}
