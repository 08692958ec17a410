//! The terms that rules lead to, settled.

ghost use Rattle.std.specs.Prelude.{◌≡◌, IfOk, IsTrue};
ghost use Rattle.theory_syntax.specs.Process.{Process};
ghost use Rattle.theory_semantics.specs.Meaning.Limits.{fits};
ghost use Rattle.theory_semantics.specs.Meaning.Unfolding.{settled};
ghost use Rattle.csp_term.specs.Script.{script_of_parts};
ghost use Rattle.csp_term.specs.Term.{process_of};
ghost use Rattle.csp_settling.specs.Settling.{IsWithin};
ghost use Rattle.csp_steps.specs.Answering.{process_under, target_of, within_limits};

use crate::rule_step::Target;
use csp_expression::Binding;
use csp_settling::{Unfolded, settle};
use csp_term::{AllocHandle, Memory, ScriptParts, Term};

/// The term with the values put in, settled, if it is then within the limits. `Memory` says that there is no room.
pub(crate) fn put_in_place<A: AllocHandle>(
    alloc: A,
    script: &ScriptParts<A>,
    bindings: &[Binding<'_, A>],
    term: &Term<A>,
) -> Result<Target<A>, Memory>
    ensures { IfOk result (λ t. target_of t ≡ within_limits
        (settled (script_of_parts script.now) (process_under bindings.now term.now))) }
{
    let target = Target::put_in(alloc, term, bindings)?;
    settled(alloc, script, target)
}

/// What the target is settled to. What is past the limits stays so.
pub(crate) fn settled<A: AllocHandle>(
    alloc: A,
    script: &ScriptParts<A>,
    target: Target<A>,
) -> Result<Target<A>, Memory>
    ensures { (p : Process) → target_of target ≡ within_limits p
        → IfOk result (λ t. target_of t ≡ within_limits (settled (script_of_parts script.now) p)) }
{
    match target {
        Target::Past => Ok(Target::Past),
        Target::Within(term) => settled_term(alloc, script, term),
    }
}

/// What the term, which is within the limits, is settled to.
fn settled_term<A: AllocHandle>(
    alloc: A,
    script: &ScriptParts<A>,
    term: Term<A>,
) -> Result<Target<A>, Memory>
    ensures { IsTrue (fits (process_of term)) → IfOk result
        (λ t. target_of t
        ≡ within_limits (settled (script_of_parts script.now) (process_of term))) }
{
    let unfolded = settle(alloc, script, &term)?;
    match unfolded {
        Unfolded::Same => Ok(Target::Within(term)),
        Unfolded::To(other) => Ok(within(other)),
        Unfolded::Past => Ok(Target::Past),
    }
}

/// The term, if it is within the limits.
fn within<A: AllocHandle>(term: Term<A>) -> Target<A>
    ensures { target_of result ≡ within_limits (process_of term) }
{
    if term.fits() {
        Target::Within(term)
    } else {
        Target::Past
    }
}

/// What the body of a call is settled to, if it is within the limits.
pub(crate) fn settled_body<A: AllocHandle>(
    alloc: A,
    script: &ScriptParts<A>,
    body: Option<Term<A>>,
) -> Result<Target<A>, Memory>
    ensures { (p : Process) → IsWithin body p → IfOk result
        (λ t. target_of t ≡ within_limits (settled (script_of_parts script.now) p)) }
{
    match body {
        None => Ok(Target::Past),
        Some(body) => settled(alloc, script, Target::Within(body)),
    }
}
