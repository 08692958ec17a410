//! Walks through a process by hand: its states, one after the other, each with all that it offers.
//!
//! A walk begins at a term, which is shown with its steps, by number, and where each comes from: exactly the steps that
//! the rules give it, in order. Each line of input asks for something: to take a step, by its number or by what it does,
//! to go back, to see the state again, or to end. What a walk shows by lines of input is one text, behind each line what
//! it gives. With the facts that show the definitions right.
#![tactic(auto)]

ghost use Rattle.std.specs.Prelude.{◌≡◌, ◌∷◌, ◌++◌, [], ℕ, List, Option, Some, codes};
ghost use Rattle.theory_syntax.specs.Process.{Process, Script, Stop};
ghost use Rattle.theory_semantics.specs.Meaning.Evaluation.{OutOfRange};
ghost use Rattle.theory_notation.specs.Names.{Names};
ghost use Rattle.theory_notation.specs.Samples.{names, p};
ghost use Rattle.theory_runs.specs.Stuck.{ByCause, BySize};
ghost use Rattle.theory_explanation.specs.Cutting.{Whole, Width};
ghost use Rattle.theory_walk.specs.Answers.{Says, Shows, answer};
ghost use Rattle.theory_walk.specs.Commands.{Again, Back, End, Take, command_of};
ghost use Rattle.theory_walk.specs.Laws.{HaveOrigins, IsOnRun, OfferSteps};
ghost use Rattle.theory_walk.specs.Moves.{IsMenu, Move, Offers, Stuck};
ghost use Rattle.theory_walk.specs.Samples.{ended, goes_on, once, stops, unfolds};
ghost use Rattle.theory_walk.specs.Trails.{Trail, back, begun, further};
ghost use Rattle.theory_walk.specs.Views.{view_text};
ghost use Rattle.theory_walk.specs.Walks.{IsGiven, IsWalk, Place, answer_to};

/// What a state offers are exactly its steps, and of each the origin is told.
pub fn menus_offer_all_steps()
    ensures steps { (script : Script) (t : Process) (moves : List Move)
        → IsMenu script t (Offers moves) → OfferSteps script t moves }
    ensures origins { (script : Script) (t : Process) (moves : List Move)
        → IsMenu script t (Offers moves) → HaveOrigins script t moves }
{}

/// Where a walk is, a run of its start leads, by the moves that were taken.
pub fn walks_are_runs()
    ensures { (script : Script) (names : Names) (width : Width) (start : Process) (lines : List (List ℕ)) (text : List ℕ) (q : Place) →
        IsWalk script names width start lines text (Some q) → IsOnRun script start q }
{}

/// A walk that goes on is one along one line more, with what that gives.
pub fn walks_go_on()
    ensures { (script : Script) (names : Names) (width : Width) (start : Process) (lines : List (List ℕ)) (text : List ℕ) (q : Place) (line more : List ℕ) (next : Option Place) →
        IsWalk script names width start lines text (Some q) → IsGiven script names width q (answer_to names q line) more next
        → IsWalk script names width start (lines ++ line ∷ []) (text ++ more) next }
{}

/// To go back undoes a move.
pub fn moves_are_undone()
    ensures { (trail : Trail) (m : Move) → back (further trail m) ≡ trail }
{}

/// What lines ask for.
pub fn commands_of_lines()
    ensures number { command_of (codes " 12\r") ≡ Take (codes "12") }
    ensures event { command_of (codes "c.1 ") ≡ Take (codes "c.1") }
    ensures back { command_of (codes "u") ≡ Back }
    ensures end { command_of (codes "q\r") ≡ End }
    ensures again { command_of (codes "  ") ≡ Again }
{}

/// A move is taken by its number, and by what it does, if no other one does the same.
pub fn answers_to_commands()
    ensures number { answer names (begun p) (stops ∷ goes_on ∷ []) (Take (codes "2"))
        ≡ Shows (further (begun p) goes_on) }
    ensures event { answer names (begun p) (unfolds ∷ stops ∷ []) (Take (codes "c.1"))
        ≡ Shows (further (begun p) stops) }
    ensures several { answer names (begun p) (stops ∷ goes_on ∷ []) (Take (codes "c.1"))
        ≡ Says (codes "several steps do that: take one by its number\n") }
    ensures none { answer names (begun p) (stops ∷ goes_on ∷ []) (Take (codes "3"))
        ≡ Says (codes "no such step: a number, the text of an event, u or q\n") }
    ensures back { answer names once (unfolds ∷ []) Back ≡ Shows (begun p) }
    ensures start { answer names (begun p) (unfolds ∷ []) Back ≡ Says (codes "this is the start\n") }
{}

/// States are shown with all that they offer.
pub fn texts_of_states()
    ensures steps { view_text names Whole (begun p) (Offers (unfolds ∷ stops ∷ []))
        ≡ codes "state 0\n      P\n  1 tau: unfolds P\n  2 c.1\n" }
    ensures none { view_text names Whole (further once stops) (Offers [])
        ≡ codes "state 2\n      STOP\n  no step\n" }
    ensures fault { view_text names Whole once (Stuck (ByCause OutOfRange))
        ≡ codes "state 1\n      P\n  no step: refused fault range\n" }
    ensures large { view_text names Whole once (Stuck BySize)
        ≡ codes "state 1\n      P\n  no step: refused term\n" }
{}
