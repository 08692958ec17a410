//! Violations at once that are told by tau.

ghost use Rattle.std.specs.Prelude.{◌≡◌, length, map, suc, IfOk, IfSome};
ghost use Rattle.theory_syntax.specs.Process.{AtOnce};
ghost use Rattle.theory_semantics.specs.Kinds.Scripts.{IsTermOf};
ghost use Rattle.theory_search.specs.Terms.{IsAssertionOf};
ghost use Rattle.csp_term.specs.Script.{assertion_of, script_of};
ghost use Rattle.csp_term.specs.Term.{process_of};
ghost use Rattle.verdict.specs.Outcome.{violation_of};
ghost use Rattle.counterexample.specs.Counterexample.{ComesBack};
ghost use Rattle.counterexample.specs.Spreading.{BeginsIn, IsSpread, SpreadsLasso, SpreadsReplay};

use crate::counterexamples::{Counterexample, along};
use crate::sides::Sides;
use crate::style::Style;
use csp_replay::{Lasso, Replay, replay_of};
use csp_term::{AllocHandle, Assertion, Memory, Script, Term, Unfolding};
use spread_runs::{spread_loop, spread_run, written_script};
use verdict::Shown;

/// What is told of a violation by a run of the script as it is written.
#[derive(Drop)]
pub struct Spread<A: AllocHandle> {
    /// The violation, by the path of that run.
    pub shown: Shown<A>,
    /// The states that lead to it.
    pub counterexample: Counterexample<A>,
}

/// A run that is told in place of a replay, with the states on its way.
#[derive(Drop)]
pub(crate) struct SpreadReplay<A: AllocHandle> {
    pub(crate) shown: Shown<A>,
    pub(crate) states: Vec<Term<A>, A>,
}

/// What comes of a lasso, if there is one.
#[derive(Drop)]
pub(crate) enum SpreadLasso<A: AllocHandle> {
    /// The one that is told in its place.
    Found(Option<Lasso<A>>),
    /// None is found.
    Nowhere,
}

/// What is told of the violation where names are unfolded at once: the states of a run of the script as it is written, from
/// the term, which spreads one by the path of the violation, with where its steps come from, and what the specification has
/// along it as names are read. `None` says that names do a tau here, or that no such run is found, and `Memory` that there
/// is no room to look for it.
pub fn spread_counterexample_of<A: AllocHandle>(
    alloc: A,
    style: &Style<'_, '_, A>,
    script: &Script<A>,
    start: &Term<A>,
    assertion: &Assertion<A>,
    shown: &Shown<A>,
) -> Result<Option<Spread<A>>, Memory>
    requires terms { IsAssertionOf (script_of script.now) (assertion_of assertion.now) }
    requires start { IsTermOf (script_of script.now) (process_of start.now) }
    ensures { IfOk result (λ found. IfSome found (IsSpread (script_of script.now)
        (process_of start.now) (assertion_of assertion.now) (violation_of shown.now)
        style.now.most)) }
{
    match script.parts().unfolds {
        Unfolding::ByTau => Ok(None),
        Unfolding::AtOnce => spread_at_once(alloc, style, script, start, assertion, shown),
    }
}

// The same where names are unfolded at once.
fn spread_at_once<A: AllocHandle>(
    alloc: A,
    style: &Style<'_, '_, A>,
    script: &Script<A>,
    start: &Term<A>,
    assertion: &Assertion<A>,
    shown: &Shown<A>,
) -> Result<Option<Spread<A>>, Memory>
    requires at_once { (script_of script.now).unfolds ≡ AtOnce }
    requires terms { IsAssertionOf (script_of script.now) (assertion_of assertion.now) }
    requires start { IsTermOf (script_of script.now) (process_of start.now) }
    ensures { IfOk result (λ found. IfSome found (IsSpread (script_of script.now)
        (process_of start.now) (assertion_of assertion.now) (violation_of shown.now)
        style.now.most)) }
{
    let implementation = &assertion.implementation;
    let replay = replay_of(alloc, script, implementation, shown, style.reach)?;
    let Replay::States(states, lasso) = replay else {
        return Ok(None);
    };
    let written = written_script(alloc, script)?;
    let found = spread_replay(alloc, script, &written, start, shown, &states)?;
    let Some(told) = found else {
        return Ok(None);
    };
    let round = spread_lasso(alloc, script, &written, lasso)?;
    let SpreadLasso::Found(lasso) = round else {
        return Ok(None);
    };
    let sides = Sides {
        script: &written,
        start,
        other: script,
        specification: assertion.property.specification(),
    };
    let SpreadReplay { shown, states } = told;
    let counterexample = along(alloc, &sides, &shown, style.most, states, lasso)?;
    Ok(Some(Spread {
        shown,
        counterexample,
    }))
}

// The run from the term by the script as it is written that spreads the one through the states, if one is found.
fn spread_replay<A: AllocHandle>(
    alloc: A,
    script: &Script<A>,
    written: &Script<A>,
    start: &Term<A>,
    shown: &Shown<A>,
    states: &[Term<A>],
) -> Result<Option<SpreadReplay<A>>, Memory>
    requires closed { IsTermOf (script_of written.now) (process_of start.now) }
    requires even { length states.now ≡ suc (length shown.now.path.items) }
    ensures { IfOk result (λ found. IfSome found (SpreadsReplay (script_of written.now)
        (process_of start.now) (violation_of shown.now) (map process_of states.now))) }
{
    let found = spread_run(alloc, script, written, start, &shown.path, states)?;
    let Some(told) = found else {
        return Ok(None);
    };
    let evidence = shown.evidence.try_copy(alloc)?;
    let shown = Shown {
        path: told.path,
        evidence,
    };
    Ok(Some(SpreadReplay {
        shown,
        states: told.states,
    }))
}

// The lasso by the script as it is written that spreads this one.
fn spread_lasso<A: AllocHandle>(
    alloc: A,
    script: &Script<A>,
    written: &Script<A>,
    lasso: Option<Lasso<A>>,
) -> Result<SpreadLasso<A>, Memory>
    requires closed { BeginsIn (script_of written.now) lasso }
    requires comes { ComesBack lasso }
    ensures { IfOk result (SpreadsLasso (script_of written.now) lasso) }
{
    let Some(lasso) = lasso else {
        return Ok(SpreadLasso::Found(None));
    };
    let found = spread_loop(alloc, script, written, &lasso.states, lasso.back)?;
    match found {
        Some(round) => Ok(SpreadLasso::Found(Some(Lasso {
            states: round.states,
            back: round.back,
        }))),
        None => Ok(SpreadLasso::Nowhere),
    }
}
