//! Runs of sides to stuck states, by the script as it is written.

ghost use Rattle.std.specs.Prelude.{◌≡◌, length, suc, IfOk, IfSome};
ghost use Rattle.theory_syntax.specs.Process.{AtOnce};
ghost use Rattle.theory_semantics.specs.Kinds.Scripts.{IsTermOf};
ghost use Rattle.theory_search.specs.Terms.{IsAssertionOf};
ghost use Rattle.theory_explanation.specs.Faults.{IsSpreadSide};
ghost use Rattle.csp_term.specs.Script.{assertion_of, script_of};
ghost use Rattle.csp_term.specs.Term.{process_of};
ghost use Rattle.explanation.specs.Sides.{IsEven, side_run_of, specification_run_of};
ghost use Rattle.explanation.specs.ToldRuns.{SpreadsTold};

use crate::sides::SideRun;
use crate::told_run::{ToldRun, told_run};
use csp_replay::StuckRun;
use csp_term::{AllocHandle, Assertion, Memory, Script, Term, Unfolding};
use spread_runs::{spread_run, written_script};

/// The run of the side, as it is written, by the script as it is written, that spreads this one. `None` says that names do a
/// tau in the script, or that no such run is found.
pub(crate) fn spread_side<A: AllocHandle>(
    alloc: A,
    script: &Script<A>,
    written: &Assertion<A>,
    run: &SideRun<A>,
) -> Result<Option<SideRun<A>>, Memory>
    requires terms { IsAssertionOf (script_of script.now) (assertion_of written.now) }
    requires even { IsEven (side_run_of run.now) }
    ensures { IfOk result (λ found. IfSome found (λ told. IsSpreadSide (script_of script.now)
        (assertion_of written.now) (side_run_of run.now) (side_run_of told))) }
{
    match script.parts().unfolds {
        Unfolding::ByTau => Ok(None),
        Unfolding::AtOnce => spread_at_once(alloc, script, written, run),
    }
}

// The same where names are unfolded at once.
fn spread_at_once<A: AllocHandle>(
    alloc: A,
    script: &Script<A>,
    written: &Assertion<A>,
    run: &SideRun<A>,
) -> Result<Option<SideRun<A>>, Memory>
    requires at_once { (script_of script.now).unfolds ≡ AtOnce }
    requires terms { IsAssertionOf (script_of script.now) (assertion_of written.now) }
    requires even { IsEven (side_run_of run.now) }
    ensures { IfOk result (λ found. IfSome found (λ told. IsSpreadSide (script_of script.now)
        (assertion_of written.now) (side_run_of run.now) (side_run_of told))) }
{
    match run {
        SideRun::Implementation(told) => {
            let spread = spread_told(alloc, script, &written.implementation, told)?;
            match spread {
                Some(spread) => Ok(Some(SideRun::Implementation(spread))),
                None => Ok(None),
            }
        }
        SideRun::Specification(told) => spread_specification(alloc, script, written, told),
    }
}

// The same of a run of the specification, if there is one.
fn spread_specification<A: AllocHandle>(
    alloc: A,
    script: &Script<A>,
    written: &Assertion<A>,
    told: &ToldRun<A>,
) -> Result<Option<SideRun<A>>, Memory>
    requires at_once { (script_of script.now).unfolds ≡ AtOnce }
    requires terms { IsAssertionOf (script_of script.now) (assertion_of written.now) }
    requires even { length told.now.run.states.items ≡ suc (length told.now.run.path.items) }
    ensures { IfOk result (λ found. IfSome found (λ spread. IsSpreadSide (script_of script.now)
        (assertion_of written.now) (specification_run_of told.now) (side_run_of spread))) }
{
    let start = written.property.specification();
    let Some(start) = start else {
        return Ok(None);
    };
    let spread = spread_told(alloc, script, start, told)?;
    match spread {
        Some(spread) => Ok(Some(SideRun::Specification(spread))),
        None => Ok(None),
    }
}

// A run from the term that spreads the one that is told.
fn spread_told<A: AllocHandle>(
    alloc: A,
    script: &Script<A>,
    start: &Term<A>,
    told: &ToldRun<A>,
) -> Result<Option<ToldRun<A>>, Memory>
    requires at_once { (script_of script.now).unfolds ≡ AtOnce }
    requires closed { IsTermOf (script_of script.now) (process_of start.now) }
    requires even { length told.now.run.states.items ≡ suc (length told.now.run.path.items) }
    ensures { IfOk result (λ found. IfSome found (SpreadsTold (script_of script.now)
        (process_of start.now) told.now)) }
{
    let written = written_script(alloc, script)?;
    let StuckRun { path, states } = &told.run;
    let found = spread_run(alloc, script, &written, start, path, states)?;
    let Some(longer) = found else {
        return Ok(None);
    };
    let stuck = StuckRun {
        path: longer.path,
        states: longer.states,
    };
    let spread = told_run(alloc, &written, stuck)?;
    Ok(Some(spread))
}
