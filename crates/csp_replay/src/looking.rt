//! Looks at one term.

ghost use Rattle.std.specs.Prelude.{◌≡◌, map, IfOk};
ghost use Rattle.theory_semantics.specs.Kinds.Scripts.{IsTermOf};
ghost use Rattle.theory_runs.specs.Stuck.{steps_in};
ghost use Rattle.csp_term.specs.Script.{script_of};
ghost use Rattle.csp_term.specs.Term.{process_of};
ghost use Rattle.csp_fire.specs.Form.{form_of, step_of};
ghost use Rattle.csp_replay.specs.Hindrance.{hindrance_of};
ghost use Rattle.csp_replay.specs.Looking.{IsSeen};

use crate::hindrance::Hindrance;
use csp_fire::{Form, Step, fire};
use csp_term::{AllocHandle, Memory, Script, Term};

/// The steps of a term of the script, or `None` where it is stuck by this.
pub(crate) fn look_at<A: AllocHandle>(
    alloc: A,
    script: &Script<A>,
    term: &Term<A>,
    hindrance: Hindrance,
) -> Result<Option<Vec<Step<A>, A>>, Memory>
    requires closed { IsTermOf (script_of script.now) (process_of term.now) }
    ensures { IfOk result (IsSeen (script_of script.now) (process_of term.now)
        (hindrance_of hindrance)) }
{
    let form = fire(alloc, script, term)?.into_form();
    if hindrance.is_shown_by(&form) {
        return Ok(None);
    }
    Ok(Some(steps_of_form(alloc, form)))
}

// The steps of the form, none of one that is stuck.
fn steps_of_form<A: AllocHandle>(alloc: A, form: Form<A>) -> Vec<Step<A>, A>
    ensures { map step_of result.items ≡ steps_in (form_of form) }
{
    match form {
        Form::Steps(steps, _) => steps,
        Form::Faulty(_) => Vec::new(alloc),
        Form::Large => Vec::new(alloc),
    }
}
