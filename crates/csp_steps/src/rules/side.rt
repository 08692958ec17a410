//! The sides of an operator.

ghost use Rattle.csp_term.specs.Script.{script_of_parts};
ghost use Rattle.csp_steps.specs.Answering.{process_under};
ghost use Rattle.csp_steps.specs.Composing.{AreSidesOf, IsSideOf};

use crate::rule_step::Target;
use crate::rules;
use crate::side::Side;
use csp_expression::{Binding, NoValue};
use csp_term::{AllocHandle, ScriptParts, Term};

/// The term with the values put in, as a side: with its steps, or why it has none.
#[cycle(steps)]
pub(crate) fn under<'v, A: AllocHandle>(
    alloc: A,
    script: &'v ScriptParts<A>,
    bindings: &[Binding<'v, A>],
    term: &'v Term<A>,
) -> Result<Side<A>, NoValue>
    ensures { IsSideOf (script_of_parts script.now) (process_under bindings.now term.now) result }
{
    let steps = rules::steps(alloc, script, bindings, term)?;
    let process = Target::put_in(alloc, term, bindings)?;
    Ok(Side { process, steps })
}

/// Both sides of an operator, or why one of them has no steps: the left one's reason before the right one's.
#[cycle(steps)]
pub(crate) fn both<'v, A: AllocHandle>(
    alloc: A,
    script: &'v ScriptParts<A>,
    bindings: &[Binding<'v, A>],
    left: &'v Term<A>,
    right: &'v Term<A>,
) -> Result<(Side<A>, Side<A>), NoValue>
    ensures { AreSidesOf (script_of_parts script.now) (process_under bindings.now left.now)
        (process_under bindings.now right.now) result }
{
    let left = under(alloc, script, bindings, left)?;
    let right = under(alloc, script, bindings, right)?;
    Ok((left, right))
}
