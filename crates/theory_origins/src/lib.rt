//! Where a step comes from.
//!
//! The rules that give a step tell which part of the process moves, and why: what unfolds, is chosen, is hidden or ends,
//! and the way down to it. That is read off them as the step's origin. Every step has one, and an origin explains only a
//! step.
#![tactic(auto)]

ghost use Rattle.std.specs.Prelude.{◌≡◌, ◌≢◌, ◌⊎◌, [], ◌∷◌};
ghost use Rattle.theory_syntax.specs.Value.{Action, Event, Tau, Tick, Ev};
ghost use Rattle.theory_syntax.specs.Expression.{no_expressions};
ghost use Rattle.theory_syntax.specs.Process.{Process, Stop, Skip, Omega, Call, Sequential, Interleaving, InternalChoice, SlidingChoice, Script};
ghost use Rattle.theory_semantics.specs.Meaning.Transitions.{RuleStep};
ghost use Rattle.theory_semantics.specs.Laws.Terms.{letters, digits, letter, a_stop, looping, choice_of_calls};
ghost use Rattle.theory_origins.specs.Origin.{Left, Right, OnBranch, InChain, SideEnds, Hides, Renames, Origin, Does, Ends, Unfolds, Chooses, Slides, Below, Together, ComesFrom};
ghost use Rattle.theory_origins.specs.Doers.{AreDoneBy, doers};
ghost use Rattle.theory_origins.specs.Parts.{ArePlaced, HasNoTau, HaveNoTau, placed_parts};
ghost use Rattle.theory_origins.specs.Action.{action_of};
ghost use Rattle.theory_origins.specs.Worked.{event, without, b_for_a, a_together, may_slide, first_two, third};

/// An origin explains only a step.
pub fn origins_are_of_steps()
    ensures { (script : Script) (p : Process) (x : Action) (t : Process) (o : Origin)
        → ComesFrom script p x t o → RuleStep script p x t }
{}

/// Every step has an origin.
pub fn steps_have_origins()
    ensures { (script : Script) (p : Process) (x : Action) (t : Process) → RuleStep script p x t
        → (o : Origin) × ComesFrom script p x t o }
{}

/// An origin tells the action of its steps.
pub fn origins_tell_actions()
    ensures { (script : Script) (p : Process) (x : Action) (t : Process) (o : Origin)
        → ComesFrom script p x t o → action_of o ≡ x }
{}

/// Each tick leads to the process that has ended.
pub fn ticks_lead_to_the_end()
    ensures { (script : Script) (p t : Process) → RuleStep script p Tick t → t ≡ Omega }
{}

/// The origins of the taus of `P` with `P = P`, of `SKIP ; STOP`, of `(SKIP |~| STOP) [> a -> STOP`, and of
/// `|~| x:{0..2} @ P(x)`, which is `(P(0) |~| P(1)) |~| P(2)`.
pub fn origins_of_taus()
    ensures unfolds { ComesFrom looping (Call 0 no_expressions) Tau (Call 0 no_expressions)
        (Unfolds 0) }
    ensures ends { ComesFrom (letters []) (Sequential Skip Stop) Tau Stop
        (Below (SideEnds Left) Ends) }
    ensures slides { ComesFrom (letters []) may_slide Tau a_stop Slides }
    ensures stays { ComesFrom (letters []) may_slide Tau (SlidingChoice Stop a_stop)
        (Below (OnBranch Left) (Chooses Right)) }
    ensures first { ComesFrom digits choice_of_calls Tau first_two (Below InChain (Chooses Left)) }
    ensures last { ComesFrom digits choice_of_calls Tau third (Below InChain (Chooses Right)) }
{}

/// The origins of the steps of `(a -> STOP) \ {a}`, of `((a -> STOP)[[a <- b]]) \ {b}`, and of
/// `(a -> STOP) [| {a} |] (a -> STOP)`.
pub fn origins_of_events()
    ensures hidden { ComesFrom (letters []) (without 0 a_stop) Tau (without 0 Stop)
        (Below (Hides (event 0)) (Does (event 0))) }
    ensures renamed { ComesFrom (letters []) (without 1 (b_for_a a_stop)) Tau
        (without 1 (b_for_a Stop))
        (Below (Hides (event 1)) (Below (Renames (event 0) (event 1)) (Does (event 0)))) }
    ensures together { ComesFrom (letters []) (a_together a_stop a_stop) (letter 0)
        (a_together Stop Stop) (Together (Does (event 0)) (Does (event 0))) }
{}

/// `SKIP |~| SKIP` becomes `SKIP` by either side, and a name only by its equation.
pub fn all_origins_of_small_steps()
    ensures either { (o : Origin) → ComesFrom (letters []) (InternalChoice Skip Skip) Tau Skip o
        → (o ≡ Chooses Left) ⊎ (o ≡ Chooses Right) }
    ensures left { ComesFrom (letters []) (InternalChoice Skip Skip) Tau Skip (Chooses Left) }
    ensures right { ComesFrom (letters []) (InternalChoice Skip Skip) Tau Skip (Chooses Right) }
    ensures unfolds { (o : Origin) → ComesFrom looping (Call 0 no_expressions) Tau
        (Call 0 no_expressions) o → o ≡ Unfolds 0 }
{}

/// Each part that an origin tells to do an event is one of those that stand beside one another, and can do that event.
/// Each event has such a part.
pub fn doers_do_their_events()
    ensures done { (script : Script) (p : Process) (x : Action) (t : Process) (o : Origin)
        → ComesFrom script p x t o → AreDoneBy script p (doers o) }
    ensures some { (script : Script) (p t : Process) (e : Event) (o : Origin)
        → ComesFrom script p (Ev e) t o → doers o ≢ [] }
{}

/// The parts below parallel operators, hiding and renaming stand at the ends of their ways. Where the process has no tau,
/// none of them has one.
pub fn parts_wait_together()
    ensures placed { (script : Script) (p : Process) → ArePlaced script p (placed_parts p) }
    ensures waits { (script : Script) (p : Process) → HasNoTau script p
        → HaveNoTau script (placed_parts p) }
{}

/// The parts of `((a -> STOP) [| {a} |] SKIP) \ {b} ||| STOP`.
pub fn parts_of_small_terms()
    ensures { placed_parts (Interleaving (without 1 (a_together a_stop Skip)) Stop)
        ≡ record { way = Left ∷ Left ∷ []; process = a_stop }
        ∷ record { way = Left ∷ Right ∷ []; process = Skip }
        ∷ record { way = Right ∷ []; process = Stop } ∷ [] }
{}
