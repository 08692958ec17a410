//! The search for the answer to an assertion, of which the answer keeps how large it was, what it took, and the path that
//! stopped it.

ghost use Rattle.std.specs.Prelude.{◌≡◌, ◌≢◌, IsSomeAnd};
ghost use Rattle.theory_search.specs.Answer.{as_written};
ghost use Rattle.theory_search.specs.Search.{Open, IsLawful};
ghost use Rattle.theory_search.specs.Terms.{IsAssertionOf};
ghost use Rattle.csp_term.specs.Script.{assertion_of, script_of};
ghost use Rattle.pair_store.specs.Bounds.{bounds_of};
ghost use Rattle.theory_search.specs.Truth.{IsRight};
ghost use Rattle.explore.specs.Answering.{IsToldOrNoMemory};
ghost use Rattle.explanation.specs.Running.{HasStop};
ghost use Rattle.verdict.specs.Outcome.{outcome_of};
ghost use Rattle.explain_program.specs.Asking.{bounds_asked};
ghost use Rattle.explain_program.specs.Sizes.{HasSize, IsSizeFor};
ghost use Rattle.explain_program.specs.Stops.{stop_kept};

use crate::search_size::{SearchSize, size_in};
use csp_term::{Action, AllocHandle, Assertion, Memory, Script};
use explain_settings::Settings;
use explore::{conclude, ended_search, ended_together};
use pair_store::{Limits, Store};
use program::Resources;
use progress::SearchProgress;
use std::sync::Wait;
use std::thread::Threads;
use verdict::{Outcome, Why};
use watch::{Cost, Watch, cost_since};

/// The answer to an assertion.
#[derive(Drop)]
pub(crate) struct Answer<A: AllocHandle> {
    /// The outcome that it has but for a `not`.
    pub(crate) found: Outcome<A>,
    /// How large the search for it was and what it took, if there was one.
    pub(crate) size: Option<SearchSize>,
    /// The path that stopped it, if a state of the implementation for which there is no answer did.
    pub(crate) stop: Option<Vec<Action<A>, A>>,
}

/// The answer to the assertion of this number, within the limits of the settings and by as many workers as they say, or by
/// the caller alone where what came back from them was no search for the assertion: a right outcome but for a `not`, how
/// large the search for it was and what it took, and the path that stopped it. So `explore` answers too. Where it is asked
/// for, or someone watches, the watch is told how far the search is.
pub(crate) fn answer_together<
    A: AllocHandle + Send + Sync,
    R: Threads + Wait + Sync,
    W: Watch + Sync,
>(
    resources: &Resources<'_, A, R>,
    watch: &W,
    settings: &Settings<'_>,
    script: &Script<A>,
    assertion: &Assertion<A>,
    number: usize,
) -> Answer<A>
    requires terms { IsAssertionOf (script_of script.now) (assertion_of assertion.now) }
    ensures right { IsRight (script_of script.now) (assertion_of assertion.now)
        (bounds_asked settings.now) (outcome_of result.found) }
    ensures size { let outcome = as_written assertion.now.negated (outcome_of result.found) in
        IsSizeFor (script_of script.now) (assertion_of assertion.now) (bounds_asked settings.now)
        outcome result.size }
    ensures stop { HasStop (script_of script.now) (assertion_of assertion.now)
        (outcome_of result.found) (stop_kept result.stop) }
{
    let (alloc, rt) = (resources.alloc, resources.rt);
    let begun = watch.elapsed();
    let is_watched = settings.progress || watch.is_watched();
    let gate = SearchProgress::begin(alloc, watch, number, is_watched);
    let limits = limits(settings);
    match ended_together(
        alloc,
        rt,
        script,
        assertion,
        limits,
        settings.workers,
        &gate,
    ) {
        Ok(Some(store)) => concluded(alloc, &store, cost_since(watch, begun)),
        Ok(None) => answer_alone(alloc, watch, begun, script, assertion, limits),
        Err(why) => Answer {
            found: Outcome::Unknown(why),
            size: None,
            stop: None,
        },
    }
}

// The limits of each search. The settings keep them in range.
fn limits(settings: &Settings<'_>) -> Limits
    ensures { bounds_of result ≡ bounds_asked settings.now }
{
    Limits::new(settings.max_pairs, settings.max_nodes)
}

// The answer by the caller alone, of a search that was begun at this time.
fn answer_alone<A: AllocHandle, W: Watch>(
    alloc: A,
    watch: &W,
    begun: Option<u64>,
    script: &Script<A>,
    assertion: &Assertion<A>,
    limits: Limits,
) -> Answer<A>
    requires { IsAssertionOf (script_of script.now) (assertion_of assertion.now) }
    ensures right { IsRight (script_of script.now) (assertion_of assertion.now) (bounds_of limits)
        (outcome_of result.found) }
    ensures size { let outcome = as_written assertion.now.negated (outcome_of result.found) in
        IsSizeFor (script_of script.now) (assertion_of assertion.now) (bounds_of limits)
        outcome result.size }
    ensures stop { HasStop (script_of script.now) (assertion_of assertion.now)
        (outcome_of result.found) (stop_kept result.stop) }
{
    match ended_search(alloc, script, assertion, limits) {
        Ok(store) => concluded(alloc, &store, cost_since(watch, begun)),
        Err(why) => Answer {
            found: Outcome::Unknown(why),
            size: None,
            stop: None,
        },
    }
}

// What a search tells that has ended and took so much, how large it is, and the path that stopped it.
fn concluded<A: AllocHandle>(alloc: A, store: &Store<'_, A>, cost: Cost) -> Answer<A>
    requires { store.now.search.verdict ≢ Open }
    ensures lawful { IsLawful store.now.script store.now.search }
    ensures told { IsToldOrNoMemory store.now.search (outcome_of result.found) }
    ensures size { IsSomeAnd result.size (HasSize store.now.search) }
    ensures stop { HasStop store.now.script store.now.search.assertion (outcome_of result.found)
        (stop_kept result.stop) }
{
    let found = conclude(alloc, store);
    let size = Some(size_in(store, cost));
    match store.stopped(alloc) {
        Ok(stop) => Answer { found, size, stop },
        Err(Memory) => Answer {
            found: Outcome::Unknown(Why::Memory),
            size,
            stop: None,
        },
    }
}
