//! Runs to terms that are stuck.

ghost use Rattle.std.specs.Prelude.{◌≡◌, ◌≢◌, ◌+◌, ◌∷◌, ◌++◌, [], ℕ, List, reverse, slice_get, Some};
ghost use Rattle.theory_syntax.specs.Value.{Action};
ghost use Rattle.theory_syntax.specs.Process.{Assertion, Process, Script};
ghost use Rattle.theory_runs.specs.Layers.{AreSteps};
ghost use Rattle.theory_runs.specs.States.{AreReached, Visits};
ghost use Rattle.theory_runs.specs.Meeting.{AreDone, AreMet, ArePut, Met};
ghost use Rattle.theory_runs.specs.Returning.{IsWayBack};
ghost use Rattle.theory_runs.specs.Stuck.{Hindrance, IsStuckBy};
ghost use Rattle.theory_search.specs.Search.{IsLawful, Search};
ghost use Rattle.theory_runs.specs.Stops.{FirstStopsAreOne, IsKnownAlong, MarkedRowsStop, NoFormHasMany, OneSideStops, StoppedHaveRow, StopsSearch};
ghost use Rattle.theory_runs.specs.Runs.{HasNoStuckRun, IsStuckRun};

/// Each state on the way to a stuck term is reached by the path's beginning that leads up to it.
pub fn states_on_the_way_are_reached()
    ensures { (script : Script) (t : Process) (h : Hindrance) (path : List Action)
        (states : List Process) → IsStuckRun script t h path states
        → AreReached script t path states }
{}

/// Where there is a run to a stuck term, it is not so that there is none.
pub fn a_stuck_run_is_one()
    ensures { (script : Script) (t : Process) (h : Hindrance) (path : List Action)
        (states : List Process) → IsStuckRun script t h path states → ¬ HasNoStuckRun script t h }
{}

/// A term is stuck by one thing alone.
pub fn hindrances_are_one()
    ensures { (script : Script) (t : Process) (h k : Hindrance) → h ≢ k → IsStuckBy script t h
        → ¬ IsStuckBy script t k }
{}

/// Where the next term that was met is not stuck so, and its steps are put there, one more is done.
pub fn one_more_is_done()
    ensures { (script : Script) (t : Process) (h : Hindrance) (done : ℕ) (m after : Met) (v : Process) (steps : List (Action × Process)) →
        AreDone script t h done m → slice_get m.0 done ≡ Some v → ¬ IsStuckBy script v h → AreSteps script v steps → ArePut done m steps after → AreDone script t h (done + 1) after }
{}

/// A way back that has come to the first term is a run from it.
pub fn ways_back_are_runs()
    ensures { (script : Script) (t : Process) (m : Met) (end here : Process) (path : List Action) (states : List Process) →
        AreMet script t m → IsWayBack script m end 0 path states → slice_get m.0 0 ≡ Some here → Visits script t (reverse path) (reverse (states ++ here ∷ [])) end }
{}

/// Where a path of the implementation stops a search, each beginning of it is along a trace of the specification, which
/// is never stuck itself. So the two sides do not both stop an assertion.
pub fn one_side_stops()
    ensures along { (script : Script) (a : Assertion) (h : Hindrance) (path : List Action)
        → StopsSearch script a h path → IsKnownAlong script a path }
    ensures one { (script : Script) (a : Assertion) → OneSideStops script a }
{}

/// A search keeps a path that stops it: that of each row that is stuck. Where it is stopped there is such a row, and all
/// of least rank have one path.
pub fn stopped_searches_keep_a_path()
    ensures stop { (script : Script) (s : Search) → IsLawful script s → MarkedRowsStop script s }
    ensures row { (script : Script) (s : Search) → IsLawful script s → StoppedHaveRow s }
    ensures one { (script : Script) (s : Search) → IsLawful script s → FirstStopsAreOne s }
{}

/// A specification that has no normal form since a term is stuck, and none of whose terms is found so among n, has more.
pub fn specifications_without_a_form()
    ensures { (script : Script) (spec : Process) → NoFormHasMany script spec }
{}
