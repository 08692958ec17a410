//! Terms on the way to what a step leads to at once.

ghost use Rattle.std.specs.Prelude.{◌≡◌, ◌⊎◌, map, slice_get, IfOk, IfSome, IsTrue, Some};
ghost use Rattle.theory_semantics.specs.Kinds.Scripts.{IsTermOf};
ghost use Rattle.theory_semantics.specs.Meaning.Unfolding.{settled};
ghost use Rattle.csp_value.specs.Action.{action_of};
ghost use Rattle.csp_term.specs.Script.{script_of, script_of_parts};
ghost use Rattle.csp_term.specs.Term.{process_of};
ghost use Rattle.spread_runs.specs.Toward.{LeadsTo, action_done};

use crate::steps::steps_of_term;
use csp_fire::Step;
use csp_settling::{Unfolded, settle};
use csp_term::laws::equal_terms;
use csp_term::{Action, AllocHandle, Memory, Script, ScriptParts, Term};
use csp_value::laws::equal_actions;

/// A term that a step by the action leads to by the script as it is written, or `None` where it has none: if there is one,
/// the target or a term that is settled to it at once, and of several the first one.
pub(crate) fn term_toward<A: AllocHandle>(
    alloc: A,
    script: &Script<A>,
    written: &Script<A>,
    term: &Term<A>,
    action: &Action<A>,
    target: &Term<A>,
) -> Result<Option<Term<A>>, Memory>
    requires closed { IsTermOf (script_of written.now) (process_of term.now) }
    ensures { IfOk result (λ found. IfSome found (LeadsTo (script_of written.now)
        (process_of term.now) (action_of action.now))) }
{
    let steps = steps_of_term(alloc, written, term)?;
    let found = place_toward(alloc, script.parts(), &steps, action, target)?;
    let Some(place) = found else {
        return Ok(None);
    };
    let next = steps[place].target.try_copy(alloc)?;
    Ok(Some(next))
}

// The place of such a step.
fn place_toward<A: AllocHandle>(
    alloc: A,
    script: &ScriptParts<A>,
    steps: &[Step<A>],
    action: &Action<A>,
    target: &Term<A>,
) -> Result<Option<usize>, Memory>
    ensures { IfOk result (λ found. IfSome found (λ k. slice_get (map action_done steps.now) k
        ≡ Some (action_of action.now))) }
{
    let found = near_place(alloc, script, steps, action, target)?;
    if found.is_some() {
        return Ok(found);
    }
    Ok(any_place(steps, action))
}

// The place of the first step by the action to the target, or to what is settled to it.
fn near_place<A: AllocHandle>(
    alloc: A,
    script: &ScriptParts<A>,
    steps: &[Step<A>],
    action: &Action<A>,
    target: &Term<A>,
) -> Result<Option<usize>, Memory>
    ensures { IfOk result (λ found. IfSome found (λ k. slice_get (map action_done steps.now) k
        ≡ Some (action_of action.now))) }
{
    for (place, step) in steps.iter().enumerate() {
        if equal_actions(&step.action, action) {
            let is_near = is_toward(alloc, script, &step.target, target)?;
            if is_near {
                return Ok(Some(place));
            }
        }
    }
    Ok(None)
}

// The place of the first step by the action.
fn any_place<A: AllocHandle>(steps: &[Step<A>], action: &Action<A>) -> Option<usize>
    ensures { IfSome result (λ k. slice_get (map action_done steps.now) k
        ≡ Some (action_of action.now)) }
{
    for place in 0..steps.len() {
        if equal_actions(&steps[place].action, action) {
            return Some(place);
        }
    }
    None
}

// Whether the term is the target, or is settled to it.
fn is_toward<A: AllocHandle>(
    alloc: A,
    script: &ScriptParts<A>,
    term: &Term<A>,
    target: &Term<A>,
) -> Result<bool, Memory>
    ensures { IfOk result (λ is. IsTrue is → (process_of target.now ≡ process_of term.now)
        ⊎ (process_of target.now ≡ settled (script_of_parts script.now) (process_of term.now))) }
{
    if equal_terms(target, term) {
        return Ok(true);
    }
    let unfolded = settle(alloc, script, term)?;
    match unfolded {
        Unfolded::Same => Ok(false),
        Unfolded::To(other) => Ok(equal_terms(target, &other)),
        Unfolded::Past => Ok(false),
    }
}
