//! Whether a step leads to a process, settled.

ghost use Rattle.std.specs.Prelude.{◌≡◌, ◌↔◌, IfOk, IsTrue};
ghost use Rattle.theory_semantics.specs.Meaning.Limits.{fits};
ghost use Rattle.theory_semantics.specs.Meaning.Unfolding.{settled};
ghost use Rattle.csp_term.specs.Script.{script_of_parts};
ghost use Rattle.csp_term.specs.Term.{process_of};

use csp_settling::{Unfolded, settle};
use csp_term::laws::equal_terms;
use csp_term::{AllocHandle, Memory, ScriptParts, Term};

/// Whether the target is what the process is settled to. `Memory` says that there is no room.
pub(crate) fn leads_to<A: AllocHandle>(
    alloc: A,
    script: &ScriptParts<A>,
    process: &Term<A>,
    target: &Term<A>,
) -> Result<bool, Memory>
    requires { IsTrue (fits (process_of target.now)) }
    ensures { IfOk result (λ leads. IsTrue leads
        ↔ (process_of target.now ≡ settled (script_of_parts script.now) (process_of process.now))) }
{
    let unfolded = settle(alloc, script, process)?;
    match unfolded {
        Unfolded::Same => Ok(equal_terms(target, process)),
        Unfolded::To(other) => Ok(equal_terms(target, &other)),
        Unfolded::Past => Ok(false),
    }
}
