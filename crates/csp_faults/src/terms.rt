//! What is to blame in a term that a rule for it lacks a value.

ghost use Rattle.theory_faults.specs.Processes.{culprit_in};
ghost use Rattle.csp_term.specs.Script.{script_of_parts};
ghost use Rattle.csp_term.specs.Term.{process_of};
ghost use Rattle.csp_faults.specs.Culprit.{Finds};

use crate::culprit::Culprit;
use crate::own::own_culprit;
use crate::parts::looked_at;
use csp_term::{AllocHandle, Memory, ScriptParts, Term};

/// What is to blame in the term that a rule for it lacks a value: nothing where none does. `Memory` says nothing of it.
#[cycle(terms)]
pub fn culprit_in<A: AllocHandle>(
    alloc: A,
    script: &ScriptParts<A>,
    term: &Term<A>,
) -> Result<Option<Culprit<A>>, Memory>
    ensures { Finds result (culprit_in (script_of_parts script.now) (process_of term.now)) }
{
    let own = own_culprit(alloc, script, term)?;
    if own.is_some() {
        return Ok(own);
    }
    let parts = looked_at(alloc, script, term)?;
    for part in &parts {
        let found = culprit_in(alloc, script, part)?;
        if found.is_some() {
            return Ok(found);
        }
    }
    Ok(None)
}
