//! Firing a term.

ghost use Rattle.std.specs.Prelude.{◌≡◌, IfOk, map};
ghost use Rattle.theory_semantics.specs.Kinds.Scripts.{IsTermOf};
ghost use Rattle.theory_semantics.specs.Meaning.Expansions.{IsFormOf, IsExpansion};
ghost use Rattle.csp_term.specs.Term.{process_of};
ghost use Rattle.csp_term.specs.Script.{script_of, script_of_parts};
ghost use Rattle.csp_fire.specs.Form.{form_of, step_of};
ghost use Rattle.std.specs.Option.{option_map};
ghost use Rattle.csp_steps.specs.Answering.{all_within, answered_of};
ghost use Rattle.csp_fire.specs.Targets.{LeadsToTermsOf};
ghost use Rattle.csp_fire.specs.Offering.{IsFormByAnswer, IsFormBySteps};

use crate::expansion::Expansion;
use crate::form::{Form, Step};
use crate::offers::offers;
use csp_steps::{NoValue, RuleStep, Target, steps};
use csp_term::{AllocHandle, Memory, Script, ScriptParts, Term};

/// Fires a term of the script, which is closed and well-kinded. The expansion names the script and the term that were
/// handed in, and its steps lead to terms of the script. `Memory` says that there is no room for it.
pub fn fire<'s, A: AllocHandle>(
    alloc: A,
    script: &'s Script<A>,
    term: &Term<A>,
) -> Result<Expansion<'s, A>, Memory>
    requires closed { IsTermOf (script_of script.now) (process_of term.now) }
    ensures script { IfOk result (λ e. e.script ≡ script_of script.now) }
    ensures term { IfOk result (λ e. e.term ≡ process_of term.now) }
    ensures exact { IfOk result IsExpansion }
    ensures targets { IfOk result (λ e. LeadsToTermsOf e.script e.form) }
{
    let form = form_of_term(alloc, script.parts(), term)?;
    let term = term.try_copy(alloc)?;
    Ok(Expansion { script, term, form })
}

/// The form of a term of the script that has these parts. No operand in it is of the wrong kind.
#[tactic(auto, using(theory_semantics::proofs::Putting::put_nothing))]
fn form_of_term<A: AllocHandle>(
    alloc: A,
    script: &ScriptParts<A>,
    term: &Term<A>,
) -> Result<Form<A>, Memory>
    requires closed { IsTermOf (script_of_parts script.now) (process_of term.now) }
    ensures { IfOk result (λ f. IsFormOf (script_of_parts script.now) (process_of term.now)
        (form_of f)) }
{
    if !term.fits() {
        return Ok(Form::Large);
    }
    match steps(alloc, script, &[], term) {
        Ok(answered) => form_by_answer(alloc, answered),
        Err(NoValue::Memory) => Err(Memory),
        Err(NoValue::Cause(cause)) => match cause.fault() {
            Some(fault) => Ok(Form::Faulty(fault)),
            None => unreachable!(),
        },
    }
}

/// The form of the term that is answered so: large, where a step leads past the limits.
fn form_by_answer<A: AllocHandle>(
    alloc: A,
    answered: Vec<RuleStep<A>, A>,
) -> Result<Form<A>, Memory>
    ensures { IfOk result (λ f. IsFormByAnswer (map answered_of answered.items) (form_of f)) }
{
    match steps_within(alloc, answered)? {
        Some(steps) => form_by_steps(alloc, steps),
        None => Ok(Form::Large),
    }
}

/// The steps, where none leads past the limits.
fn steps_within<A: AllocHandle>(
    alloc: A,
    answered: Vec<RuleStep<A>, A>,
) -> Result<Option<Vec<Step<A>, A>>, Memory>
    ensures { IfOk result (λ steps. option_map (λ ss. map step_of ss.items) steps
        ≡ all_within (map answered_of answered.items)) }
{
    let mut steps = Vec::new(alloc);
    for step in answered {
        let RuleStep { action, target } = step;
        match target {
            Target::Within(target) => steps.push(Step { action, target })?,
            Target::Past => return Ok(None),
        }
    }
    Ok(Some(steps))
}

/// The form of the term that has these steps, of which none leads past the limits.
fn form_by_steps<A: AllocHandle>(alloc: A, mut steps: Vec<Step<A>, A>) -> Result<Form<A>, Memory>
    ensures { IfOk result (λ f. IsFormBySteps (map step_of steps.items) (form_of f)) }
{
    steps.sort_unstable();
    steps.dedup();
    let offers = offers(alloc, &steps)?;
    Ok(Form::Steps(steps, offers))
}
