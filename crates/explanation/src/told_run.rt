//! Runs to stuck states, with where their steps come from.

ghost use Rattle.std.specs.Prelude.{◌≡◌, length, suc, IfOk};
ghost use Rattle.csp_term.specs.Script.{script_of};
ghost use Rattle.explanation.specs.ToldRuns.{HasOriginsOf};

use counterexample::origins_along;
use csp_moves::Origin;
use csp_replay::StuckRun;
use csp_term::{AllocHandle, Memory, Script};

/// A run to a stuck state, with where each of its steps comes from.
#[derive(Drop)]
pub struct ToldRun<A: AllocHandle> {
    /// The path, and the states on its way.
    pub run: StuckRun<A>,
    /// The origin of each step.
    pub origins: Vec<Option<Origin<A>>, A>,
}

/// The run, with where its steps come from.
pub(crate) fn told_run<A: AllocHandle>(
    alloc: A,
    script: &Script<A>,
    run: StuckRun<A>,
) -> Result<ToldRun<A>, Memory>
    requires { length run.states.items ≡ suc (length run.path.items) }
    ensures { IfOk result (HasOriginsOf (script_of script.now) run) }
{
    let origins = origins_along(alloc, script, &run.path, &run.states)?;
    Ok(ToldRun { run, origins })
}
