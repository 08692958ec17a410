//! What is told of an answered assertion.
//!
//! The text of an assertion with its outcome, as the program `explain` prints it: a headline, and behind it why it fails,
//! state by state, with where each hidden step comes from, or why it has no answer. And what a specification has along
//! the path of a violation, with its text, and how large a search was.
#![tactic(auto)]

ghost use Rattle.std.specs.Prelude.{◌≡◌, ◌≢◌, ◌∷◌, [], codes, false, true, pos, slice_get, Contains, List, None, Option, Some, ℕ};
ghost use Rattle.theory_syntax.specs.Process.{Assertion, DeadlockFree, DivergenceFree, ExternalChoice, Interleaving, Omega, Process, RefinementOf, Script, Skip, Stop, Traces};
ghost use Rattle.theory_syntax.specs.Expression.{Add, Apply, Combine, Head, Modulus, Range, SequenceOf, SetOf, Tail, no_expressions};
ghost use Rattle.theory_syntax.specs.Value.{Action, Integer, Tau, Tick};
ghost use Rattle.theory_faults.specs.Culprit.{NoChoice, OfChannel, OfConstructor, Outside, Valueless};
ghost use Rattle.theory_faults.specs.Truth.{IsToBlame};
ghost use Rattle.theory_syntax.specs.Readings.{at_once, by_tau};
ghost use Rattle.theory_semantics.specs.Laws.Terms.{digits};
ghost use Rattle.theory_semantics.specs.Meaning.Runs.{trace};
ghost use Rattle.theory_semantics.specs.Meaning.Evaluation.{BadModulus, Cause, EmptySequence, OutOfRange, Overflow};
ghost use Rattle.theory_semantics.specs.Meaning.Violations.{ByDeadlock, ByDivergence, ByEvent, ByOffers, IsViolation, Violation};
ghost use Rattle.theory_search.specs.Search.{EndedFails, IsLawful, Search};
ghost use Rattle.theory_origins.specs.Origin.{Below, Chooses, ComesFrom, Does, Ends, Hides, InBody, InChain, Left, OnBranch, Origin, Renames, Right, Side, SideEnds, Slides, Together, UnderGuard, Unfolds};
ghost use Rattle.theory_notation.specs.Samples.{minus_one, names, number, p};
ghost use Rattle.theory_runs.specs.States.{AreReached, IsReplay};
ghost use Rattle.theory_runs.specs.Stops.{IsKnownAlong};
ghost use Rattle.theory_runs.specs.Stuck.{ByCause, BySize, Hindrance};
ghost use Rattle.theory_explanation.specs.Comparing.{counterexample_text};
ghost use Rattle.theory_explanation.specs.Counterexamples.{Along, Counterexample, Counterpart, HasOriginAt, HasWideEnd, IsCounterexample, IsSpreadCounterexample, Loop, ShowsLack, TellsDivergence, Waiting, WaitsThere, by_path};
ghost use Rattle.theory_unfolding.specs.Assertions.{HasViolationLike};
ghost use Rattle.theory_explanation.specs.Counterparts.{lack_text, specification_text};
ghost use Rattle.theory_explanation.specs.Counting.{count_text};
ghost use Rattle.theory_explanation.specs.Culprits.{culprit_text, last_culprit};
ghost use Rattle.theory_explanation.specs.Cutting.{Whole};
ghost use Rattle.theory_explanation.specs.Faults.{IsFound, IsToldRun, OfImplementation, OfSpecification, found_text};
ghost use Rattle.theory_explanation.specs.Folding.{ByEvents, EachStep, Folded};
ghost use Rattle.theory_explanation.specs.Headline.{assertion_text};
ghost use Rattle.theory_explanation.specs.Loops.{loop_text};
ghost use Rattle.theory_explanation.specs.Origins.{source_text};
ghost use Rattle.theory_explanation.specs.Legend.{legend};
ghost use Rattle.theory_explanation.specs.PartNames.{IsCallAt, PartName, name_of, names_along, part_names_behind, unfolded};
ghost use Rattle.theory_explanation.specs.Samples.{below, c, c_two, event, named_run, not_true, right_named, telling, told, unfolded_run, unnamed};
ghost use Rattle.theory_explanation.specs.Steps.{path_text, step_line};
ghost use Rattle.theory_explanation.specs.Waiting.{parts_text};

/// Each state of a replay is reached by the path's beginning that leads up to it.
pub fn replayed_states_are_reached()
    ensures { (script : Script) (p : Process) (v : Violation) (states : List Process)
        → IsReplay script p v states → AreReached script p v.path states }
{}

/// What is told of the specification at the end of a violation's path shows what is lacking there.
pub fn counterparts_show_lack()
    ensures { (script : Script) (a : Assertion) (v : Violation) (n : ℕ) (found : Counterexample) (told : Counterpart) →
        IsViolation script a v → IsCounterexample script a v n found → found.counterpart ≡ Some told → ShowsLack v.evidence told }
{}

/// Each step of a counterexample comes from the origin that is told.
pub fn counterexamples_tell_origins()
    ensures { (script : Script) (a : Assertion) (v : Violation) (n : ℕ) (found : Counterexample) (i : ℕ) (x : Action) →
        IsCounterexample script a v n found → slice_get v.path i ≡ Some x → HasOriginAt script found.states found.origins i x }
{}

/// A counterexample of divergence has a loop that begins where a run by its path ends. Each state of the loop diverges,
/// and each of its taus comes from the origin that is told.
pub fn counterexamples_tell_divergence()
    ensures { (script : Script) (a : Assertion) (v : Violation) (n : ℕ) (found : Counterexample)
        → IsCounterexample script a v n found → v.evidence ≡ ByDivergence
        → (loop : Loop) × (found.loop ≡ Some loop)
        × TellsDivergence script a.implementation v.path loop }
{}

/// Where names are unfolded at once, and a violation by tau with that trace and evidence is there, what is told by a run of
/// the script as it is written is told of such a violation.
pub fn spread_counterexamples_show_violations()
    ensures { (script : Script) (written a : Assertion) (v : Violation) (n : ℕ) (longer : List Action) (found : Counterexample) →
        IsSpreadCounterexample script written.implementation a v n longer found → HasViolationLike (by_tau script) written v →
        IsViolation (by_tau script) written (by_path longer v) × (trace longer ≡ trace v.path) }
{}

/// Of a search that fails by divergence the loop is told, where it is looked for among as many states as there may be
/// pairs.
pub fn failed_searches_have_loops()
    ensures { (script : Script) (s : Search) (i : ℕ) (v : Violation) → IsLawful script s
        → s.assertion.property ≡ DivergenceFree → s.verdict ≡ EndedFails i
        → ¬ HasWideEnd script s.assertion v s.bounds.max_pairs }
{}

/// Each part that is told to wait at the end of a counterexample stands there, and can do what is told. It can do no tau,
/// as the state cannot.
pub fn counterexamples_tell_what_waits()
    ensures { (script : Script) (a : Assertion) (v : Violation) (n : ℕ) (found : Counterexample)
        → (is : IsCounterexample script a v n found) → (w : Waiting) → Contains found.waiting w
        → WaitsThere script is.replay.end w }
{}

/// Each step of a run to a stuck state comes from the origin that is told.
pub fn stuck_runs_tell_origins()
    ensures { (script : Script) (t : Process) (h : Hindrance) (path : List Action) (states : List Process) (origins : List (Option Origin)) (i : ℕ) (x : Action) →
        IsToldRun script t h path states origins → slice_get path i ≡ Some x → HasOriginAt script states origins i x }
{}

/// A run of the implementation that is told where there is no answer is along traces of the specification, each beginning
/// of it, and the specification has no state that is stuck.
pub fn told_stops_are_known()
    ensures known { (script : Script) (a : Assertion) (h : Hindrance) (n : ℕ) (path : List Action) (states : List Process) (origins : List (Option Origin)) →
        IsFound script a h n (Some (OfImplementation path states origins)) → IsKnownAlong script a path }
    ensures one { (script : Script) (a : Assertion) (h k : Hindrance) (n : ℕ) (path others : List Action) (states : List Process) (ends : List Process) (origins : List (Option Origin)) (told : List (Option Origin)) →
        IsFound script a h n (Some (OfImplementation path states origins)) → ¬ IsFound script a k n (Some (OfSpecification others ends told)) }
{}

/// A run to a state for which there is no answer, with the side that it is of, or that none is looked for.
pub fn texts_of_stops()
    ensures implementation { found_text told digits (ByCause OutOfRange)
        (Some (OfImplementation (c 1 ∷ []) (Stop ∷ c_two ∷ []) (Some (Does (event 1)) ∷ [])))
        ≡ codes "  the implementation comes there by\n  0 start\n      STOP\n  1 c.1\n      c.2 -> STOP\n  there field 1 of `c` is given `2`, which lies outside of its set\n" }
    ensures specification { found_text told digits BySize (Some (OfSpecification [] (p ∷ []) []))
        ≡ codes "  the specification comes there by\n  0 start\n      P\n  there it is too large, or what a step leads to\n" }
    ensures at_once { found_text told (at_once digits) BySize (Some (OfSpecification [] (p ∷ []) []))
        ≡ codes "  the specification comes there by\n  0 start\n      P\n  there it is too large, or what a step leads to, with its names unfolded\n" }
    ensures none { found_text told digits BySize None
        ≡ codes "  the specification comes there, and has too many states to tell how\n" }
{}

/// A run that is told to a term for which a rule lacks a value ends with what is to blame there, which explains that
/// cause.
pub fn told_faults_are_explained()
    ensures { (script : Script) (t : Process) (why : Cause) (path : List Action) (states : List Process) (origins : List (Option Origin)) →
        IsToldRun script t (ByCause why) path states origins → IsToBlame script (last_culprit script states) (Some why) }
{}

/// What is to blame: an operator over values, a value outside of the set of its field, or a choice over an empty set.
pub fn texts_of_culprits()
    ensures number { culprit_text names (Valueless (Combine Add (number 2147483647) (number 1))
        Overflow) ≡ codes "`2147483647 + 1` has no value: it lies outside of 32 bits" }
    ensures set { culprit_text names (Valueless (Range (number 1) (number 2000)) Overflow)
        ≡ codes "`{1..2000}` has no value: it has more than 1,024 members" }
    ensures head { culprit_text names (Valueless (Apply Head (SequenceOf no_expressions))
        EmptySequence) ≡ codes "`head(<>)` has no value: it is the head of an empty sequence" }
    ensures tail { culprit_text names (Valueless (Apply Tail (SequenceOf no_expressions))
        EmptySequence) ≡ codes "`tail(<>)` has no value: it is the tail of an empty sequence" }
    ensures remainder { culprit_text names (Valueless (Combine Modulus (number 5) (number 0))
        BadModulus) ≡ codes "`5 % 0` has no value: the right side of `%` is not positive" }
    ensures channel { culprit_text names (Outside (OfChannel 0) 1 (Integer (pos 7)))
        ≡ codes "field 1 of `c` is given `7`, which lies outside of its set" }
    ensures constructor { culprit_text names (Outside (OfConstructor 1) 2 minus_one)
        ≡ codes "field 2 of `B` is given `-1`, which lies outside of its set" }
    ensures choice { culprit_text names (NoChoice 0 (SetOf no_expressions))
        ≡ codes "`|~| x:{}` has nothing to choose from" }
{}

/// `not` negates behind `assert` alone, so a first side that begins with it stands in brackets: in a refinement, and in an
/// assertion of a property.
pub fn texts_of_assertions()
    ensures plain { assertion_text names
        (record { property = RefinementOf Traces Stop; implementation = p; negated = true })
        ≡ codes "not STOP [T= P" }
    ensures side { assertion_text names (record
        { property = RefinementOf Traces not_true; implementation = not_true; negated = false })
        ≡ codes "(not true & STOP) [T= not true & STOP" }
    ensures both { assertion_text names (record
        { property = DeadlockFree; implementation = not_true; negated = true })
        ≡ codes "not (not true & STOP) :[deadlock free]" }
    ensures chain { assertion_text names
        (record {
          property = DivergenceFree;
          implementation = ExternalChoice not_true p;
          negated = false;
        }) ≡ codes "(not true & STOP [] P) :[divergence free]" }
{}

/// The first few states of a specification, and how many more there are.
pub fn texts_of_specifications()
    ensures all { specification_text names Whole 2 (p ∷ Stop ∷ [])
        ≡ codes "      specification: P\n      specification: STOP\n" }
    ensures few { specification_text names Whole 1 (p ∷ Stop ∷ Omega ∷ [])
        ≡ codes "      specification: P\n      specification: and 2 more\n" }
    ensures none { specification_text names Whole 1 [] ≡ [] }
{}

/// What the specification has at the end: its initials, or its acceptances with what is lacking of them.
pub fn texts_of_lacks()
    ensures initials { lack_text names (ByEvent Tick) (c 1 ∷ c 2 ∷ []) []
        ≡ codes "  there the specification can do no more than {c.1,c.2}\n" }
    ensures nothing { lack_text names (ByEvent Tick) [] ([] ∷ [])
        ≡ codes "  there the specification can do no more than {}\n" }
    ensures acceptances { lack_text names (ByOffers (c 1 ∷ [])) []
        ((c 1 ∷ c 2 ∷ []) ∷ (c 3 ∷ []) ∷ []) ≡ codes
        "  there the specification may offer {c.1,c.2}, of which {c.2} is lacking\n  there the specification may offer {c.3}, of which {c.3} is lacking\n" }
    ensures unstable { lack_text names (ByOffers []) [] []
        ≡ codes "  there no state of the specification is stable\n" }
{}

/// Where a tau comes from: a call, a choice or the end of a process, at the start or some sides below, and a hidden event.
pub fn texts_of_origins()
    ensures call { source_text unnamed Tau (Some (Unfolds 0)) ≡ codes ": unfolds P" }
    ensures sides { source_text unnamed Tau
        (Some (below Left (Below InBody (below Right (Below InChain (Unfolds 0))))))
        ≡ codes ": left.right: unfolds P" }
    ensures choice { source_text unnamed Tau (Some (below Right (Chooses Left)))
        ≡ codes ": right: chooses its left side" }
    ensures slides { source_text unnamed Tau (Some Slides) ≡ codes ": slides to its right side" }
    ensures ends { source_text unnamed Tau (Some (Below (SideEnds Left) Ends))
        ≡ codes ": left: ends" }
    ensures unknown { source_text unnamed Tau None ≡ [] }
{}

/// Which parts do a hidden event: the process itself, one below a side, both sides, or parts below both.
pub fn texts_of_hidden_events()
    ensures itself { source_text unnamed Tau (Some (Below (Hides (event 1)) (Does (event 1))))
        ≡ codes ": hidden c.1" }
    ensures side { source_text unnamed Tau
        (Some (below Left (Below (Hides (event 1)) (below Right (below Left (Does (event 1)))))))
        ≡ codes ": left: hidden c.1 by right.left" }
    ensures both { source_text unnamed Tau
        (Some (Below (Hides (event 1)) (Together (below Left (Does (event 1))) (Does (event 1)))))
        ≡ codes ": hidden c.1 by left.left, right" }
    ensures renamed { source_text unnamed Tau
        (Some (Below (Hides (event 1))
        (below Left (Below (Renames (event 2) (event 1)) (Does (event 2))))))
        ≡ codes ": hidden c.1 by left as c.2" }
{}

/// Which parts do an event that is seen: the process itself, or parts below sides of parallel operators, of which no side
/// or branch is told. What is another event there, below a renaming, is told.
pub fn texts_of_doers()
    ensures itself { source_text unnamed (c 1) (Some (Does (event 1))) ≡ [] }
    ensures side { source_text unnamed (c 1) (Some (below Right (Does (event 1))))
        ≡ codes " by right" }
    ensures branch { source_text unnamed (c 1)
        (Some (below Right (Below (OnBranch Left) (Does (event 1))))) ≡ codes " by right" }
    ensures guard { source_text unnamed (c 1)
        (Some (below Right (Below UnderGuard (below Left (Does (event 1)))))) ≡ codes " by right" }
    ensures under { source_text unnamed (c 1)
        (Some (Below (OnBranch Left) (Below (Renames (event 2) (event 1)) (Does (event 2))))) ≡ [] }
    ensures below { source_text unnamed (c 1)
        (Some (Below (Renames (event 2) (event 1)) (Does (event 2)))) ≡ codes " as c.2" }
    ensures twice { source_text unnamed (c 1)
        (Some (Below (Renames (event 2) (event 1))
        (Below (Renames (event 3) (event 2)) (Does (event 3))))) ≡ codes " as c.3" }
    ensures together { source_text unnamed (c 1)
        (Some (Together (Below (Renames (event 2) (event 1)) (Does (event 2)))
        (Together (Does (event 1)) (Does (event 1)))))
        ≡ codes " by left as c.2, right.left, right.right" }
    ensures unknown { source_text unnamed (c 1) None ≡ [] }
{}

/// A part has the name of the equation that was unfolded last at its way, whatever is unfolded elsewhere.
pub fn parts_have_the_last_names()
    ensures there { (parts : List PartName) (o : Origin) (d : PartName) → unfolded o ≡ Some d
        → name_of (part_names_behind parts (Some o)) d.way ≡ Some d.equation }
    ensures elsewhere { (parts : List PartName) (o : Origin) (way : List Side)
        → ((d : PartName) → unfolded o ≡ Some d → d.way ≢ way)
        → name_of (part_names_behind parts (Some o)) way ≡ name_of parts way }
{}

/// What a step is told to unfold is a call of that equation, which stands at the end of that way.
pub fn names_are_of_calls()
    ensures { (script : Script) (p : Process) (x : Action) (t : Process) (o : Origin) (d : PartName)
        → ComesFrom script p x t o → unfolded o ≡ Some d → IsCallAt script p d }
{}

/// The names of parts behind steps: of what is unfolded, the last one at each way. A name that is unfolded in a choice is
/// none of a part, and a part of a body that is no call has none.
pub fn names_of_small_runs()
    ensures whole { names_along [] (Some (Unfolds 0) ∷ [])
        ≡ record { way = []; equation = 0 } ∷ [] }
    ensures sides { names_along [] (Some (below Left (Unfolds 1))
        ∷ Some (below Right (below Left (Unfolds 2))) ∷ [])
        ≡ record { way = Left ∷ []; equation = 1 }
        ∷ record { way = Right ∷ Left ∷ []; equation = 2 } ∷ [] }
    ensures last { names_along [] (Some (below Left (Unfolds 1))
        ∷ Some (below Left (Does (event 1))) ∷ Some (below Left (Unfolds 2)) ∷ [])
        ≡ record { way = Left ∷ []; equation = 2 } ∷ [] }
    ensures through { names_along [] (Some
        (Below InBody (below Left (Below UnderGuard (Below InChain (Unfolds 1))))) ∷ [])
        ≡ record { way = Left ∷ []; equation = 1 } ∷ [] }
    ensures choice { names_along [] (Some (below Left (Unfolds 1))
        ∷ Some (below Left (Below (OnBranch Right) (Unfolds 2))) ∷ [])
        ≡ record { way = Left ∷ []; equation = 1 } ∷ [] }
    ensures inside { name_of (names_along [] (Some (Unfolds 0) ∷ [])) (Left ∷ []) ≡ None }
{}

/// The names of parts behind their ways, where they have one: of what does an event, and of what moves in a tau, but for a
/// name that unfolds. Within a choice nothing has a name.
pub fn texts_of_part_names()
    ensures event { source_text right_named (c 1)
        (Some (Together (Does (event 1)) (Does (event 1)))) ≡ codes " by left, right (P)" }
    ensures renamed { source_text right_named (c 1)
        (Some (Below (Renames (event 2) (event 1)) (below Right (Does (event 2)))))
        ≡ codes " by right (P) as c.2" }
    ensures hidden { source_text right_named Tau
        (Some (Below (Hides (event 1)) (Together (Does (event 1)) (below Left (Does (event 1))))))
        ≡ codes ": hidden c.1 by left, right.left (P)" }
    ensures below { source_text right_named Tau
        (Some (below Right (Below (Hides (event 1)) (Together (Does (event 1)) (Does (event 1))))))
        ≡ codes ": right (P): hidden c.1 by left (P), right" }
    ensures choice { source_text right_named Tau (Some (below Right (Chooses Left)))
        ≡ codes ": right (P): chooses its left side" }
    ensures ends { source_text right_named Tau (Some (Below (SideEnds Right) Ends))
        ≡ codes ": right (P): ends" }
    ensures branch { source_text right_named Tau
        (Some (below Right (Below (OnBranch Left) (Chooses Left))))
        ≡ codes ": right.left: chooses its left side" }
    ensures call { source_text right_named Tau (Some (below Right (Unfolds 0)))
        ≡ codes ": right: unfolds P" }
    ensures whole { source_text (legend names (record { way = []; equation = 0 } ∷ [])) Tau
        (Some Slides) ≡ codes ": slides to its right side" }
{}

/// The line of a tau, and that of an event.
pub fn texts_of_steps()
    ensures tau { step_line unnamed 3 Tau (Some (below Left (Unfolds 0))) []
        ≡ codes "  3 tau: left: unfolds P\n" }
    ensures event { step_line unnamed 12 (c 1) (Some (below Left (Does (event 1)))) []
        ≡ codes "  12 c.1 by left\n" }
{}

/// A step after which the specification cannot go on.
pub fn texts_of_counterexamples()
    ensures { counterexample_text told (record { path = c 1 ∷ []; evidence = ByEvent (c 2) })
        (record {
          states = p ∷ Stop ∷ [];
          origins = Some (Does (event 1)) ∷ [];
          counterpart = Some (Along ((p ∷ []) ∷ (Omega ∷ p ∷ []) ∷ []) (Tick ∷ []) []);
          loop = None;
          waiting = [];
        })
        ≡ codes "  0 start\n      P\n      specification: P\n  1 c.1\n      STOP\n      specification: _OMEGA\n      specification: and 1 more\n  then it does c.2, and the specification cannot\n  there the specification can do no more than {tick}\n" }
{}

/// A divergence: the run, and behind it the taus of its loop, with the state that the last one leads back to. Of many taus
/// the first few, and how many are left out.
pub fn texts_of_loops()
    ensures whole { counterexample_text told (record { path = c 1 ∷ []; evidence = ByDivergence })
        (record {
          states = Stop ∷ p ∷ [];
          origins = Some (Does (event 1)) ∷ [];
          counterpart = None;
          loop = Some
              (record {
                states = p ∷ Skip ∷ [];
                back = 0;
                origins = Some (Unfolds 0) ∷ Some Slides ∷ [];
              });
          waiting = [];
        })
        ≡ codes "  0 start\n      STOP\n  1 c.1\n      P\n  then it goes on with tau for ever:\n  2 tau: unfolds P\n      SKIP\n  3 tau: slides to its right side\n      back to state 1\n" }
    ensures named { loop_text told (record { way = Right ∷ []; equation = 0 } ∷ []) 0
        (Some (record {
          states = p ∷ Stop ∷ [];
          back = 0;
          origins = Some (below Left (Unfolds 0)) ∷ Some (Below (Hides (event 1)) (Together (Does (event 1)) (Does (event 1)))) ∷ [];
        }))
        ≡ codes "  1 tau: left: unfolds P\n      STOP\n  2 tau: hidden c.1 by left (P), right (P)\n      back to state 0\n" }
    ensures cut { loop_text told [] 4 (Some
        (record {
          states = p ∷ Stop ∷ p ∷ p ∷ [];
          back = 1;
          origins = Some (Unfolds 0) ∷ None ∷ None ∷ None ∷ [];
        }))
        ≡ codes "  5 tau: unfolds P\n      STOP\n  6 tau\n      P\n  .. 2 more taus, back to state 5\n" }
    ensures none { loop_text told [] 4 None ≡ [] }
{}

/// A deadlock: what each part can do by itself. A state that is one part alone has been told.
pub fn texts_of_waiting()
    ensures parts { counterexample_text told (record { path = []; evidence = ByDeadlock })
        (record {
          states = Interleaving p Stop ∷ [];
          origins = [];
          counterpart = None;
          loop = None;
          waiting = record
              { way = Left ∷ []; process = p; initials = c 1 ∷ Tick ∷ [] }
              ∷ record { way = Right ∷ []; process = Stop; initials = [] } ∷ [];
        })
        ≡ codes "  0 start\n      P ||| STOP\n  then it can do nothing\n  by itself left can do {c.1,tick}\n      P\n  by itself right can do {}\n      STOP\n" }
    ensures named { counterexample_text (telling ByEvents)
        (record { path = Tau ∷ []; evidence = ByDeadlock })
        (record {
          states = Interleaving p Stop ∷ Interleaving Stop Stop ∷ [];
          origins = Some (below Left (Unfolds 0)) ∷ [];
          counterpart = None;
          loop = None;
          waiting = record
              { way = Left ∷ []; process = Stop; initials = [] }
              ∷ record { way = Right ∷ []; process = Stop; initials = [] } ∷ [];
        })
        ≡ codes "      STOP ||| STOP\n  then it can do nothing\n  by itself left (P) can do {}\n      STOP\n  by itself right can do {}\n      STOP\n" }
    ensures one { parts_text told [] (record { way = []; process = p; initials = c 1 ∷ [] } ∷ [])
        ≡ [] }
{}

/// How large a search was, of one and of several.
pub fn texts_of_counts()
    ensures refinement { count_text (RefinementOf Traces Stop) 785 12
        ≡ codes "  785 pairs, 12 nodes\n" }
    ensures one { count_text (RefinementOf Traces Stop) 1 1 ≡ codes "  1 pair, 1 node\n" }
    ensures freedom { count_text DeadlockFree 785 0 ≡ codes "  785 pairs\n" }
{}

/// Steps that unfold a name are told with the step before, or at the start, and behind them the state that they lead to;
/// or each alone; or of a path its events alone, seen and hidden, and its last state.
pub fn texts_of_tellings()
    ensures folded { path_text (telling Folded) (Tau ∷ c 1 ∷ Tau ∷ Tau ∷ [])
        (p ∷ Stop ∷ p ∷ Skip ∷ Stop ∷ []) unfolded_run []
        ≡ codes "  0 start, then unfolds P\n      STOP\n  2 c.1 by left, then unfolds P, P\n      STOP\n" }
    ensures each { path_text (telling EachStep) (Tau ∷ []) (p ∷ Stop ∷ []) (Some (Unfolds 0) ∷ [])
        [] ≡ codes "  0 start\n      P\n  1 tau: unfolds P\n      STOP\n" }
    ensures events { path_text (telling ByEvents) (Tau ∷ c 1 ∷ Tau ∷ Tau ∷ [])
        (p ∷ Stop ∷ p ∷ Skip ∷ Stop ∷ []) unfolded_run [] ≡ codes "  2 c.1 by left\n      STOP\n" }
    ensures named { path_text (telling Folded) (Tau ∷ c 1 ∷ Tau ∷ c 1 ∷ [])
        (p ∷ Stop ∷ p ∷ Skip ∷ Stop ∷ []) named_run []
        ≡ codes "  0 start, then unfolds P\n      STOP\n  2 c.1 by left, right (P), then unfolds P\n      SKIP\n  4 c.1 by left (P), right (P)\n      STOP\n" }
    ensures events_named { path_text (telling ByEvents) (Tau ∷ c 1 ∷ Tau ∷ c 1 ∷ [])
        (p ∷ Stop ∷ p ∷ Skip ∷ Stop ∷ []) named_run []
        ≡ codes "  2 c.1 by left, right (P)\n  4 c.1 by left (P), right (P)\n      STOP\n" }
    ensures hidden { path_text (telling ByEvents) (Tau ∷ []) (p ∷ Skip ∷ [])
        (Some (Below (Hides (event 1)) (below Right (Does (event 1)))) ∷ []) []
        ≡ codes "  1 tau: hidden c.1 by right\n      SKIP\n" }
{}
