//! Runs told state by state.

ghost use Rattle.theory_syntax.specs.Value.{Action, Tau};
ghost use Rattle.theory_syntax.specs.Expression.{no_expressions};
ghost use Rattle.theory_syntax.specs.Process.{Assertion, Call, DivergenceFree, InternalChoice, Process, Script, Skip, Stop};
ghost use Rattle.theory_semantics.specs.Meaning.Divergence.{Diverges};
ghost use Rattle.theory_semantics.specs.Meaning.Violations.{ByDivergence, IsViolation, Violation};
ghost use Rattle.theory_semantics.specs.Meaning.Offers.{CanDo};
ghost use Rattle.theory_semantics.specs.Laws.Terms.{letters, looping};
ghost use Rattle.std.specs.Prelude.{◌≡◌, ℕ, List, [], ◌∷◌, Contains};
ghost use Rattle.theory_search.specs.Search.{EndedFails, IsLawful, Row, Search};
ghost use Rattle.theory_runs.specs.Lassos.{EachDiverges, HasFewBehind, HasLassoWithin, IsLasso, LeftTermsDiverge, NumberedTermsEnd, PlacesEnd, RowsLeadByTaus, StayWithin, WalksComeBack, WalksGoOn};
ghost use Rattle.theory_runs.specs.States.{AreReached, AreStepByStep, EndsAreMet, HasEnd, Shows, Visits};

/// Each state on the way of a path is reached by the path's beginning that leads up to it.
pub fn visited_states_are_reached()
    ensures { (script : Script) (t u : Process) (path : List Action) (states : List Process)
        → Visits script t path states u → AreReached script t path states }
{}

/// A step by each action of the path leads from a state on its way to the next one.
pub fn visited_states_step()
    ensures { (script : Script) (t u : Process) (path : List Action) (states : List Process)
        → Visits script t path states u → AreStepByStep script path states }
{}

/// The path of a violation leads to a state that shows its evidence.
pub fn violations_have_ends()
    ensures { (script : Script) (a : Assertion) (v : Violation) → IsViolation script a v
        → HasEnd script a.implementation v }
{}

/// A state that shows the evidence of a violation is one where it is met, wherever else its path leads.
pub fn ends_meet_violations()
    ensures { (script : Script) (a : Assertion) (v : Violation) → IsViolation script a v
        → EndsAreMet script a v }
{}

/// Each state of a lasso diverges.
pub fn lassos_diverge()
    ensures { (script : Script) (t : Process) (states : List Process) (back : ℕ) (again : Process)
        → IsLasso script t states back again → EachDiverges script states }
{}

/// Where taus stay within finitely many terms, one of these that diverges has a lasso through some of them.
pub fn diverging_terms_have_lassos()
    ensures { (script : Script) (terms : List Process) (t : Process) → StayWithin script terms
        → Contains terms t → Diverges script t → HasLassoWithin script terms t }
{}

/// Where terms have numbers that fall along taus, and no more can be numbered, those without a number diverge, and no
/// others do.
pub fn numbers_tell_divergence()
    ensures numbered { (script : Script) (terms : List Process) (taus : List (List ℕ))
        (numbers : List ℕ) → NumberedTermsEnd script terms taus numbers }
    ensures left { (script : Script) (terms : List Process) (taus : List (List ℕ))
        (numbers : List ℕ) → LeftTermsDiverge script terms taus numbers }
{}

/// A walk along the places that taus lead to is a lasso once it comes back to one of its own, and it does so after at
/// most as many steps as there are places.
pub fn walks_find_lassos()
    ensures goes_on { (taus : List (List ℕ)) → WalksGoOn taus }
    ensures back { (script : Script) (terms : List Process) (taus : List (List ℕ))
        → WalksComeBack script terms taus }
    ensures ends { (n : ℕ) (places : List ℕ) → PlacesEnd n places }
    ensures rows { (script : Script) (rows : List Row) → RowsLeadByTaus script rows }
{}

/// `P` with `P = P` is back after one tau. `STOP |~| SKIP` can do a tau, and shows no divergence.
pub fn lassos_of_small_terms()
    ensures unfolds { IsLasso looping (Call 0 no_expressions) (Call 0 no_expressions ∷ []) 0
        (Call 0 no_expressions) }
    ensures tau { CanDo (letters []) (InternalChoice Stop Skip) Tau }
    ensures none { ¬ Shows (letters []) (InternalChoice Stop Skip) ByDivergence }
{}

/// A search that fails by divergence has all rows done, and so behind no path more terms, by taus, than there may be pairs.
pub fn failed_searches_have_few_behind()
    ensures { (script : Script) (s : Search) (i : ℕ) → IsLawful script s
        → s.assertion.property ≡ DivergenceFree → s.verdict ≡ EndedFails i → HasFewBehind script s }
{}
