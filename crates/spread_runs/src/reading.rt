//! Scripts as they are written.

ghost use Rattle.std.specs.Prelude.{◌≡◌, IfOk};
ghost use Rattle.theory_syntax.specs.Readings.{by_tau};
ghost use Rattle.csp_term.specs.Script.{script_of};

use csp_term::{AllocHandle, Memory, Script, TryCopy, Unfolding};

/// A copy of the script in which each called name does a tau. `Memory` says that there is no room for it.
pub fn written_script<A: AllocHandle>(alloc: A, script: &Script<A>) -> Result<Script<A>, Memory>
    ensures { IfOk result (λ written. script_of written ≡ by_tau (script_of script.now)) }
{
    let mut parts = script.parts().try_copy(alloc)?;
    parts.unfolds = Unfolding::ByTau;
    Ok(Script::new(parts))
}
