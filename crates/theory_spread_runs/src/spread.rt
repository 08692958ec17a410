//! Runs that are spread.

ghost use Rattle.std.specs.Prelude.{◌≡◌, ◌∷◌, ◌++◌, [], ℕ, List, replicate, slice_get, Some};
ghost use Rattle.theory_syntax.specs.Value.{Action, Tau};
ghost use Rattle.theory_syntax.specs.Process.{Assertion, Process, Script};
ghost use Rattle.theory_syntax.specs.Readings.{by_tau};
ghost use Rattle.theory_semantics.specs.Meaning.Runs.{trace};
ghost use Rattle.theory_semantics.specs.Meaning.Violations.{Evidence, IsViolation, Violation};
ghost use Rattle.theory_runs.specs.Lassos.{IsLasso};
ghost use Rattle.theory_runs.specs.States.{IsReplay, Shows, Visits};
ghost use Rattle.theory_unfolding.specs.Assertions.{HasViolationLike};
ghost use Rattle.theory_spread_runs.specs.Spread.{Spreads};

/// A run that spreads another one, in whichever reading that is, leads to the end of it, with the same trace.
pub fn spread_runs_are_runs()
    ensures states { (script other : Script) (t v u : Process) (path longer : List Action) (states more : List Process) → Spreads script t path states longer more →
        Visits other v path states u → Visits script t longer more u }
    ensures traces { (script : Script) (t : Process) (path longer : List Action) (states more : List Process) → Spreads script t path states longer more →
        trace longer ≡ trace path }
{}

/// What a state shows, however names are read, it shows by tau.
pub fn states_show_the_same_by_tau()
    ensures { (script : Script) (t : Process) (e : Evidence) → Shows script t e
        → Shows (by_tau script) t e }
{}

/// So where a run that ends as a violation says is spread, this one ends so by tau; and where a loop is, it is a loop by tau.
pub fn spread_replays_are_replays()
    ensures replays { (script : Script) (t u : Process) (v : Violation) (longer : List Action) (states more : List Process) → Spreads (by_tau script) t v.path states longer more →
        IsReplay script u v states → IsReplay (by_tau script) t (record { path = longer; evidence = v.evidence }) more }
    ensures loops { (script other : Script) (t again : Process) (n back : ℕ) (longer : List Action) (states more : List Process) →
        Spreads script t (replicate n Tau) states longer (more ++ again ∷ []) → slice_get more back ≡ Some again → Visits other t (replicate n Tau) states again →
        IsLasso script t more back again }
{}

/// A run by tau with the trace and the evidence that some violation by tau has, and that ends so, is one of a violation.
pub fn spread_replays_show_violations()
    ensures { (script : Script) (a : Assertion) (v other : Violation) (states : List Process) → HasViolationLike (by_tau script) a other → trace v.path ≡ trace other.path →
        v.evidence ≡ other.evidence → IsReplay (by_tau script) a.implementation v states → IsViolation (by_tau script) a v }
{}
