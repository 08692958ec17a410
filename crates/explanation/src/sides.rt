//! Runs of a side of an assertion to a state that is stuck.

ghost use Rattle.std.specs.Prelude.{IfOk, IfSome};
ghost use Rattle.std.specs.Option.{option_map};
ghost use Rattle.theory_syntax.specs.Process.{specification_of};
ghost use Rattle.theory_semantics.specs.Kinds.Scripts.{IsTermOf};
ghost use Rattle.theory_search.specs.Terms.{IsAssertionOf};
ghost use Rattle.csp_term.specs.Script.{assertion_of, property_of, script_of};
ghost use Rattle.theory_explanation.specs.Faults.{IsFound};
ghost use Rattle.csp_replay.specs.Hindrance.{hindrance_of};
ghost use Rattle.explanation.specs.Running.{IsStop, stop_in};
ghost use Rattle.explanation.specs.Sides.{IsSpecificationRun, IsSpecificationSide, side_run_of};

use crate::told_run::{ToldRun, told_run};
use csp_replay::{Hindrance, StuckRun, replay_to_stuck, run_to_stuck};
use csp_term::{Action, AllocHandle, Assertion, Memory, Property, Script, copy_all};

/// A run of a side.
#[derive(Drop)]
pub enum SideRun<A: AllocHandle> {
    /// One of the implementation.
    Implementation(ToldRun<A>),
    /// One of the specification.
    Specification(ToldRun<A>),
}

/// A run of the side that stops: of the implementation by the path that stopped its search; or where no search was begun of
/// the specification, if one is found among `most` states.
pub(crate) fn side_run<A: AllocHandle>(
    alloc: A,
    script: &Script<A>,
    assertion: &Assertion<A>,
    hindrance: Hindrance,
    stop: Option<&[Action<A>]>,
    most: usize,
) -> Result<Option<SideRun<A>>, Memory>
    requires terms { IsAssertionOf (script_of script.now) (assertion_of assertion.now) }
    requires stop { IsStop (script_of script.now) (assertion_of assertion.now)
        (hindrance_of hindrance) (stop_in stop) }
    ensures { IfOk result (λ found. IsFound (script_of script.now) (assertion_of assertion.now)
        (hindrance_of hindrance) most (option_map side_run_of found)) }
{
    let Some(path) = stop else {
        return specification_side(alloc, script, &assertion.property, hindrance, most);
    };
    let start = &assertion.implementation;
    let found = replay_to_stuck(alloc, script, start, path, hindrance)?;
    let states = found.unwrap();
    let path = copy_all(alloc, path)?;
    let told = told_run(alloc, script, StuckRun { path, states })?;
    Ok(Some(SideRun::Implementation(told)))
}

// The same of the specification alone.
fn specification_side<A: AllocHandle>(
    alloc: A,
    script: &Script<A>,
    property: &Property<A>,
    hindrance: Hindrance,
    most: usize,
) -> Result<Option<SideRun<A>>, Memory>
    requires terms { IfSome (specification_of (property_of property.now))
        (IsTermOf (script_of script.now)) }
    ensures { IfOk result (λ found. IsSpecificationSide (script_of script.now)
        (specification_of (property_of property.now)) (hindrance_of hindrance) most
        (option_map side_run_of found)) }
{
    let found = specification_run(alloc, script, property, hindrance, most)?;
    let Some(run) = found else {
        return Ok(None);
    };
    let told = told_run(alloc, script, run)?;
    Ok(Some(SideRun::Specification(told)))
}

// A run of the specification, where there is one.
fn specification_run<A: AllocHandle>(
    alloc: A,
    script: &Script<A>,
    property: &Property<A>,
    hindrance: Hindrance,
    most: usize,
) -> Result<Option<StuckRun<A>>, Memory>
    requires terms { IfSome (specification_of (property_of property.now))
        (IsTermOf (script_of script.now)) }
    ensures { IfOk result (IsSpecificationRun (script_of script.now)
        (specification_of (property_of property.now)) (hindrance_of hindrance) most) }
{
    match property {
        Property::Refinement { specification, .. } => {
            run_to_stuck(alloc, script, specification, hindrance, most)
        }
        Property::DeadlockFree => Ok(None),
        Property::DivergenceFree => Ok(None),
    }
}
