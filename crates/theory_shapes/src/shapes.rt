//! Terms as shapes with parts in their holes.

ghost use Rattle.std.specs.Prelude.{◌≡◌, ◌≤◌, ◌<◌, ◌↔◌, ◌⊎◌, ◌+◌, Contains, IsFalse, IsTrue, List, None, Some, ℕ, ◌++◌, ◌∷◌, [], drop, get_or, length, map, max, suc, take};
ghost use Rattle.std.specs.List.{AllByRecursion, sum_by};
ghost use Rattle.theory_syntax.specs.Value.{Action, Tau, Tick};
ghost use Rattle.theory_syntax.specs.Process.{Enumeration, GeneralisedParallel, Hiding, Interleaving, Omega, Process, Script, Skip, Stop};
ghost use Rattle.theory_shapes.specs.Shape.{Composed, Framed, Hidden, Hole, Interleaved, Shape, fill, fill_from, holes, part_at};
ghost use Rattle.theory_shapes.specs.Parts.{IsPart, parts_of, shape_of};
ghost use Rattle.theory_shapes.specs.Changes.{Change, RiseWithin, changed};
ghost use Rattle.theory_shapes.specs.Edits.{edited};
ghost use Rattle.theory_shapes.specs.Pieces.{before_hole, change_edits, first_piece, in_turn, part_run, pieces, run_end, run_start};
ghost use Rattle.theory_shapes.specs.Measures.{AreShallow, deepest, levels, own_depth, own_size, size_put_in, size_taken_out};
ghost use Rattle.theory_shapes.specs.Moves.{Move, changes_from, moved_from, moves_from, parts_after, shape_after};
ghost use Rattle.theory_shapes.specs.MoveEdits.{move_edits};
ghost use Rattle.theory_shapes.specs.ShapeSteps.{AreKnown, AreStepsOf, IsAcceptedBy, IsCovered, IsShown, NoPartTicks, SidesGoOn, TargetsFit, all_changing, changed_by, shape_steps};
ghost use Rattle.theory_shapes.specs.Examples.{hidden_beside_stop, in_hole, letter_shape_steps};
ghost use Rattle.theory_semantics.specs.Laws.Terms.{a_stop, just, letter, plain};
ghost use Rattle.theory_shapes.specs.Operators.{HasValues, IsClosedShape, IsSpellableShape};
ghost use Rattle.theory_spelling.specs.Spellable.{IsSpellable};
ghost use Rattle.theory_semantics.specs.Kinds.Kind.{Kinds};
ghost use Rattle.theory_semantics.specs.Kinds.Processes.{IsClosedTerm};
ghost use Rattle.theory_semantics.specs.Kinds.Scripts.{IsTermOf};
ghost use Rattle.theory_semantics.specs.Laws.Statements.{StepsAre};
ghost use Rattle.theory_semantics.specs.Meaning.Expansions.{IsFired};
ghost use Rattle.theory_semantics.specs.Meaning.Faults.{cause_in};
ghost use Rattle.theory_semantics.specs.Meaning.Limits.{depth, fits, max_size, size};
ghost use Rattle.theory_semantics.specs.Meaning.Offers.{IsAcceptance};
ghost use Rattle.theory_semantics.specs.Meaning.Stepping.{Steps, both_ended};
ghost use Rattle.theory_semantics.specs.Meaning.Transitions.{IsLarge, IsNotStuck, RuleStep};
ghost use Rattle.theory_spelling.specs.Spelling.{spelling};

/// A term is its shape with its parts, one a hole, and no operator that stays is at the head of a part.
pub fn terms_are_taken_apart()
    ensures again { (p : Process) → fill (shape_of p) (parts_of p) ≡ p }
    ensures holes { (p : Process) → length (parts_of p) ≡ holes (shape_of p) }
    ensures parts { (p : Process) → AllByRecursion IsPart (parts_of p) }
{}

/// And it is no other shape with such parts.
pub fn taken_apart_in_one_way()
    ensures { (s : Shape) (parts : List Process) → length parts ≡ holes s
        → AllByRecursion IsPart parts → (shape_of (fill s parts) ≡ s)
        × (parts_of (fill s parts) ≡ parts) }
{}

/// A term is spelled by the pieces of its shape, with the spellings of its parts between them.
pub fn spelled_in_pieces()
    ensures whole { (s : Shape) (parts : List Process)
        → spelling (fill s parts) ≡ in_turn 0 (pieces s) (part_run parts) }
    ensures count { (s : Shape) → length (pieces s) ≡ suc (holes s) }
{}

/// The bytes before each hole are those before the one to its left, its run and the piece behind it, and hang on no part
/// farther right. So a run begins where the piece before it ends.
pub fn runs_stand_in_turn()
    ensures first { (s : Shape) (parts : List Process) → before_hole s parts 0 ≡ first_piece s }
    ensures next { (s : Shape) (parts : List Process) (i : ℕ) → i < holes s
        → before_hole s parts (suc i) ≡ before_hole s parts i
        ++ (part_run parts i ++ get_or (pieces s) (suc i) []) }
    ensures last { (s : Shape) (parts : List Process)
        → before_hole s parts (holes s) ≡ spelling (fill s parts) }
    ensures alike { (s : Shape) (parts others : List Process) (i : ℕ)
        → ((j : ℕ) → j < i → part_at parts j ≡ part_at others j)
        → before_hole s parts i ≡ before_hole s others i }
    ensures starts { (s : Shape) (parts : List Process) (i : ℕ) → i < holes s
        → run_start s parts (suc i) ≡ run_end s parts i + length (get_or (pieces s) (suc i) []) }
    ensures stands { (s : Shape) (parts : List Process) (i : ℕ) → length parts ≡ holes s → i < holes s
        → take (length (part_run parts i)) (drop (run_start s parts i) (spelling (fill s parts))) ≡ part_run parts i }
{}

/// Where parts take the places of others, their spellings take the places of those, and all other bytes stay.
pub fn changes_are_spelled_in_place()
    ensures { (s : Shape) (parts : List Process) (cs : List Change) → length parts ≡ holes s → RiseWithin 0 (holes s) cs
        → spelling (fill s (changed cs parts)) ≡ edited (spelling (fill s parts)) 0 (change_edits s parts cs) }
{}

/// The size of a term is a sum over its parts, and its depth a maximum over them. So a part of a term within the limits is
/// within them.
pub fn measured_by_parts()
    ensures size { (s : Shape) (parts : List Process) → length parts ≡ holes s
        → size (fill s parts) ≡ own_size s + sum_by size parts }
    ensures depth { (s : Shape) (parts : List Process) → length parts ≡ holes s
        → depth (fill s parts) ≡ max (own_depth s) (deepest (levels s) parts) }
    ensures levels { (s : Shape) → length (levels s) ≡ holes s }
    ensures parts { (s : Shape) (parts : List Process) → length parts ≡ holes s
        → IsTrue (fits (fill s parts)) → AllByRecursion (λ p. IsTrue (fits p)) parts }
{}

/// Where parts of a term within the limits take the places of others, what these measure tells whether the new term is
/// within them.
pub fn limits_are_told_by_changes()
    ensures size { (s : Shape) (parts : List Process) (cs : List Change) → length parts ≡ holes s → RiseWithin 0 (holes s) cs
        → size (fill s (changed cs parts)) + size_taken_out parts cs ≡ size (fill s parts) + size_put_in cs }
    ensures fits { (s : Shape) (parts : List Process) (cs : List Change) → length parts ≡ holes s → RiseWithin 0 (holes s) cs → IsTrue (fits (fill s parts))
        → IsTrue (fits (fill s (changed cs parts))) ↔ ((size (fill s parts) + size_put_in cs ≤ max_size + size_taken_out parts cs) × AreShallow s cs) }
{}

/// The steps of a term are the moves of its shape, by the steps of its parts.
pub fn steps_are_moves()
    ensures { (script : Script) (s : Shape) (parts : List Process) (known : List Steps) → AreKnown script s parts known
        → StepsAre script (fill s parts) (map (λ m. (m.0, moved_from m.1 0 s parts)) (moves_from script 0 s parts known)) }
{}

/// Each move leads to another shape with other parts.
pub fn moves_lead_to_shapes()
    ensures { (d : Move) (s : Shape) (parts : List Process) → length parts ≡ holes s
        → (length (parts_after d s parts) ≡ holes (shape_after d s)) × (moved_from d 0 s parts ≡ fill (shape_after d s) (parts_after d s parts)) }
{}

/// Each move is spelled in its place, and all other bytes stay.
pub fn moves_are_spelled_in_place()
    ensures { (d : Move) (s : Shape) (parts : List Process)
        → spelling (moved_from d 0 s parts) ≡ edited (spelling (fill s parts)) 0
        (move_edits d 0 0 s parts) }
{}

/// The steps of a term are told by changes of its parts, but where a step does not leave the shape as it is.
pub fn steps_are_changes()
    ensures moves { (script : Script) (s : Shape) (parts : List Process) (known : List Steps)
        → map (λ m. (m.0, changes_from m.1 0 s)) (moves_from script 0 s parts known) ≡ shape_steps script s parts known }
    ensures steps { (script : Script) (s : Shape) (parts : List Process) (known : List Steps) → length parts ≡ holes s → AreKnown script s parts known
        → AreStepsOf script s parts (shape_steps script s parts known) }
    ensures all { (script : Script) (s : Shape) (parts : List Process) (known : List Steps) (ms : List (Action × List Change)) → length parts ≡ holes s → AreKnown script s parts known
        → shape_steps script s parts known ≡ all_changing ms → StepsAre script (fill s parts) (changed_by s parts ms) }
{}

/// Where no part can tick and two sides have never both ended, each step leaves the shape as it is. Sides that have both
/// ended are parts.
pub fn steps_leave_the_shape()
    ensures all { (script : Script) (s : Shape) (parts : List Process) (known : List Steps) → NoPartTicks s known → SidesGoOn 0 s parts
        → (ms : List (Action × List Change)) × (shape_steps script s parts known ≡ all_changing ms) }
    ensures ended { (n m : ℕ) (l r : Shape) (parts : List Process)
        → (both_ended (fill_from n l parts) (fill_from m r parts) ≡ []) ⊎ ((l ≡ Hole) × (r ≡ Hole) × (part_at parts n ≡ Omega) × (part_at parts m ≡ Omega)) }
{}

/// A rule for a term has no cause exactly where the sets and renamings of its shape have values and its parts no cause.
pub fn causes_are_of_parts()
    ensures { (script : Script) (s : Shape) (parts : List Process) → length parts ≡ holes s
        → (cause_in script (fill s parts) ≡ None) ↔ (HasValues script s × AllByRecursion (λ p. cause_in script p ≡ None) parts) }
{}

/// A term that is covered by what was fired of its parts, and is within the limits, is not stuck if the targets of its steps
/// are within them too, and these are all its steps; if a target is not, it is large.
pub fn fired_by_parts()
    ensures within { (script : Script) (s : Shape) (parts : List Process) (known : List Steps) (ms : List (Action × List Change))
        → IsCovered script s parts known ms → IsTrue (fits (fill s parts)) → TargetsFit s parts ms
        → IsNotStuck script (fill s parts) × ((x : Action) (u : Process) → RuleStep script (fill s parts) x u ↔ Contains (changed_by s parts ms) (x, u)) }
    ensures past { (script : Script) (s : Shape) (parts : List Process) (known : List Steps) (ms : List (Action × List Change))
        → IsCovered script s parts known ms → (x : Action) (cs : List Change) → Contains ms (x, cs) → IsFalse (fits (fill s (changed cs parts)))
        → IsLarge script (fill s parts) }
{}

/// What it accepts hangs on the actions of its steps alone.
pub fn accepted_by_parts()
    ensures { (script : Script) (s : Shape) (parts : List Process) (known : List Steps) (ms : List (Action × List Change))
        → IsCovered script s parts known ms → IsNotStuck script (fill s parts)
        → (xs : List Action) → IsAcceptance script (fill s parts) xs ↔ IsAcceptedBy ms xs }
{}

/// What was fired is shown; and a term that is covered is shown by its parts.
pub fn shown_by_parts()
    ensures fired { (script : Script) (t : Process) (steps : Steps) (offers : List (List Action))
        → IsFired script t steps offers → IsShown script t steps offers }
    ensures covered { (script : Script) (s : Shape) (parts : List Process) (known : List Steps) (ms : List (Action × List Change)) (offers : List (List Action))
        → IsCovered script s parts known ms → IsTrue (fits (fill s parts)) → TargetsFit s parts ms → ((xs : List Action) → IsAcceptedBy ms xs ↔ Contains offers xs)
        → IsShown script (fill s parts) (changed_by s parts ms) offers }
{}

/// A term has a spelling of its own exactly where the sets and renamings of its shape and its parts have.
pub fn spellable_by_parts()
    ensures { (s : Shape) (parts : List Process) → length parts ≡ holes s
        → IsSpellable (fill s parts) ↔ (IsSpellableShape s × AllByRecursion IsSpellable parts) }
{}

/// So a term is known by its bytes: it is the shape with these parts if it is spelled so.
pub fn terms_are_known_by_pieces()
    ensures { (p : Process) (s : Shape) (parts : List Process) → length parts ≡ holes s → IsSpellable p → IsSpellableShape s → AllByRecursion IsSpellable parts
        → spelling p ≡ in_turn 0 (pieces s) (part_run parts) → p ≡ fill s parts }
{}

/// No operator of a shape binds a name: a term is closed exactly where the sets and renamings of its shape and its parts
/// are, and so the parts of a term of a script are terms of it.
pub fn parts_are_terms_of_the_script()
    ensures closed { (script : Script) (kinds : Kinds) (s : Shape) (parts : List Process) → length parts ≡ holes s
        → IsClosedTerm script kinds (fill s parts) ↔ (IsClosedShape script kinds s × AllByRecursion (IsClosedTerm script kinds) parts) }
    ensures parts { (script : Script) (s : Shape) (parts : List Process) → length parts ≡ holes s
        → IsTermOf script (fill s parts) → AllByRecursion (IsTermOf script) parts }
{}

/// `(SKIP \ {}) ||| STOP` has two parts, the first of them under two operators.
pub fn shape_of_a_small_term()
    ensures shape { shape_of hidden_beside_stop ≡ Composed Interleaved
        (Framed (Hidden (Enumeration [])) Hole) Hole }
    ensures parts { parts_of hidden_beside_stop ≡ Skip ∷ Stop ∷ [] }
    ensures pieces { pieces (shape_of hidden_beside_stop)
        ≡ (0x0b ∷ 0x0f ∷ []) ∷ (0x28 ∷ 0 ∷ 0 ∷ 0 ∷ 0 ∷ []) ∷ [] ∷ [] }
    ensures size { own_size (shape_of hidden_beside_stop) ≡ 3 }
    ensures levels { levels (shape_of hidden_beside_stop) ≡ 2 ∷ 1 ∷ [] }
{}

/// A step of one part, of two together, and one that is hidden; a part that ends; and two that do not leave the shape as
/// it is: a side ends that is no part, and both sides have ended.
pub fn steps_of_small_shapes()
    ensures alone { letter_shape_steps (Interleaving a_stop (plain 1 Stop))
        ≡ (letter 0, Some (in_hole 0 Stop ∷ [])) ∷ (letter 1, Some (in_hole 1 Stop ∷ [])) ∷ [] }
    ensures together { letter_shape_steps (GeneralisedParallel a_stop (just 0) (plain 0 Skip))
        ≡ (letter 0, Some (in_hole 0 Stop ∷ in_hole 1 Skip ∷ [])) ∷ [] }
    ensures hidden { letter_shape_steps (Hiding (Interleaving Stop a_stop) (just 0))
        ≡ (Tau, Some (in_hole 1 Stop ∷ [])) ∷ [] }
    ensures ends { letter_shape_steps (Interleaving Skip Stop)
        ≡ (Tau, Some (in_hole 0 Omega ∷ [])) ∷ [] }
    ensures side_ends { letter_shape_steps hidden_beside_stop ≡ (Tau, None) ∷ [] }
    ensures both_ended { letter_shape_steps (Interleaving Omega Omega) ≡ (Tick, None) ∷ [] }
{}
