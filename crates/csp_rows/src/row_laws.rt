//! What is known of a row by its parts.

ghost use Rattle.std.specs.Prelude.{◌≡◌, ◌<◌, ◌+◌, ◌∷◌, [], ℕ, Bool, IsFalse, IsTrue, List, length};
ghost use Rattle.std.specs.List.{AllByRecursion, sum_by};
ghost use Rattle.std.specs.declared.cmp.Ordering.{Ordering};
ghost use Rattle.theory_syntax.specs.Process.{Process, Script};
ghost use Rattle.theory_semantics.specs.Laws.Terms.{letters};
ghost use Rattle.theory_semantics.specs.Meaning.Expansions.{IsFired};
ghost use Rattle.theory_semantics.specs.Meaning.Limits.{fits, size};
ghost use Rattle.theory_semantics.specs.Meaning.Stepping.{Steps};
ghost use Rattle.theory_semantics.specs.Meaning.Transitions.{IsLarge};
ghost use Rattle.theory_spelling.specs.Spellable.{IsSpellable};
ghost use Rattle.theory_shapes.specs.Measures.{own_size};
ghost use Rattle.theory_shapes.specs.Operators.{IsSpellableShape};
ghost use Rattle.theory_shapes.specs.Parts.{parts_of, shape_of};
ghost use Rattle.theory_shapes.specs.Shape.{Shape, fill, holes};
ghost use Rattle.theory_shapes.specs.ShapeSteps.{IsCovered};
ghost use Rattle.csp_rows.specs.declared.changes.Change.{Change};
ghost use Rattle.csp_rows.specs.declared.changes.Run.{Run};
ghost use Rattle.csp_rows.specs.declared.composed.SideBits.{SideBits};
ghost use Rattle.csp_rows.specs.declared.numbers.ActionId.{ActionId};
ghost use Rattle.csp_rows.specs.declared.numbers.PartId.{PartId};
ghost use Rattle.csp_rows.specs.declared.part.Part.{Part};
ghost use Rattle.csp_rows.specs.declared.places.Place.{Place};
ghost use Rattle.csp_rows.specs.declared.step.Step.{Step};
ghost use Rattle.csp_rows.specs.Measures.{AreMeasured, TellsLimits};
ghost use Rattle.csp_rows.specs.Numbering.{Numbering};
ghost use Rattle.csp_rows.specs.Places.{AreRunsOf, IsTargetOf};
ghost use Rattle.csp_rows.specs.Rows.{row_parts, row_steps, size_at};
ghost use Rattle.csp_rows.specs.Runs.{AreNumbered, changing_of, run_of};
ghost use Rattle.csp_rows.specs.InOrder.{AreActionsOf, offers_in, offers_of};
ghost use Rattle.csp_rows.specs.Numbers.{AreAllNumbered};
ghost use Rattle.csp_rows.specs.Falling.{NeverFall};
ghost use Rattle.csp_rows.specs.Row.{Row};
ghost use Rattle.csp_rows.specs.ByParts.{IsRowByParts, parts_in};
ghost use Rattle.csp_rows.specs.Example.{IsOneNode, ends, small_row};
ghost use Rattle.csp_rows.specs.InBytes.{AreReadAs, AreTargetsOf};
ghost use Rattle.csp_rows.specs.Stepped.{AreStepsOfRow, HasChanges, HaveChanges, RowSteps};
ghost use Rattle.csp_rows.specs.Targets.{SpellsTerm, steps_told, target_of};

/// A term whose parts are the row's, in the order of its holes, is its own shape with the row's parts, and these are spelled
/// where its parts are. Its size is that of its operators and what is kept of its parts. Where the term has a spelling of
/// its own, so have the sets and renamings of its shape.
pub fn terms_are_rows_of_their_parts<A>()
    ensures taken_apart { (z : Numbering) (t : Process) (row : List PartId) → row_parts z row ≡ parts_of t
        → (length row ≡ holes (shape_of t)) × (t ≡ fill (shape_of t) (row_parts z row)) }
    ensures runs { (z : Numbering) (t : Process) (row : List PartId) (places : List Place) → row_parts z row ≡ parts_of t
        → AreRunsOf (shape_of t) (parts_of t) places → AreRunsOf (shape_of t) (row_parts z row) places }
    ensures size { (z : Numbering) (s : Shape) (row : List PartId) (parts : List (Part A)) → AreMeasured z parts → AllByRecursion (λ n. n.0 < length parts) row
        → length row ≡ holes s → size (fill s (row_parts z row)) ≡ own_size s + sum_by (λ n. size_at parts n.0) row }
    ensures spellable { (t : Process) → IsSpellable t → IsSpellableShape (shape_of t) }
{}

/// The term of a row is covered by what was fired of its parts: all its steps have changes.
pub fn rows_are_covered_by_their_parts<A>()
    ensures { (z : Numbering) (script : Script) (d : RowSteps A)
        → AreStepsOfRow z script d
        → IsCovered script d.row.shape (parts_in z d.row) (row_steps z d.row.parts d.row.numbers) (changing_of z d.pool d.steps) }
{}

/// So each of its steps, put in order, has a run of changes in the pool, which may be made to the bytes of the row.
pub fn steps_of_rows_have_changes<A>()
    ensures { (z : Numbering) (script : Script) (d : RowSteps A)
        → AreStepsOfRow z script d → HaveChanges z script d.row d.pool d.sorted }
{}

/// The numbers of the actions of its steps are those of events of the script, and so are those of what it accepts.
pub fn actions_of_rows_are_numbered<A>()
    ensures steps { (z : Numbering) (script : Script) (d : RowSteps A)
        → AreStepsOfRow z script d → AreNumbered z.events d.sorted }
    ensures offers { (z : Numbering) (script : Script) (d : RowSteps A) (actions : List ActionId)
        → AreStepsOfRow z script d → (NeverFall d.sorted → AreActionsOf d.sorted actions)
        → AreAllNumbered z.events actions × AllByRecursion (AreAllNumbered z.events) (offers_of actions) }
{}

/// What the measures of a step's changes tell is whether its target is within the limits. The bytes that its changes make of
/// the row's then spell it, a term of the script.
pub fn targets_of_rows_are_spelled<A>()
    ensures within { (z : Numbering) (script : Script) (r : Row A) (pool : List Change) (s : Step) (run : Run) (answer : Bool)
        → IsRowByParts z script r → HasChanges z script r pool s run → TellsLimits r.nodes (run_of pool run) r.numbers r.over r.parts answer
        → answer ≡ fits (target_of z r pool s) }
    ensures spelled { (z : Numbering) (script : Script) (r : Row A) (pool : List Change) (s : Step) (run : Run) (bytes : List ℕ)
        → IsRowByParts z script r → HasChanges z script r pool s run → IsTrue (fits (target_of z r pool s))
        → IsTargetOf r.bytes r.places (run_of pool run) r.parts bytes → SpellsTerm script (target_of z r pool s) bytes }
{}

/// Where the steps of a row all lead to terms within the limits, they are exactly what firing its term gives, with what is
/// accepted by their actions. Where one does not, the term is large.
pub fn rows_are_fired_by_their_parts<A>()
    ensures fired { (z : Numbering) (script : Script) (d : RowSteps A) (actions : List ActionId) (told : Steps)
        → AreStepsOfRow z script d → (NeverFall d.sorted → AreActionsOf d.sorted actions)
        → told ≡ steps_told z d.row d.pool d.sorted → AllByRecursion (λ t. IsTrue (fits t.1)) told
        → IsFired script d.row.term told (offers_in z (offers_of actions)) }
    ensures large { (z : Numbering) (script : Script) (r : Row A) (pool : List Change) (s : Step) (run : Run) (answer : Bool)
        → IsRowByParts z script r → HasChanges z script r pool s run
        → TellsLimits r.nodes (run_of pool run) r.numbers r.over r.parts answer → IsFalse answer → IsLarge script r.term }
{}

/// Steps that are told by the actions of their numbers, and by the processes that the bytes of their targets spell, are those
/// of the row.
pub fn rows_are_fired_in_bytes<A>()
    ensures { (z : Numbering) (script : Script) (d : RowSteps A) (actions : List ActionId) (targets : List (List ℕ)) (told : Steps)
        → AreStepsOfRow z script d → (NeverFall d.sorted → AreActionsOf d.sorted actions)
        → AllByRecursion (λ s. IsTrue (fits (target_of z d.row d.pool s))) d.sorted → AreTargetsOf d.row d.pool d.sorted targets → AreReadAs z d.sorted targets told
        → IsFired script d.row.term told (offers_in z (offers_of actions)) }
{}

/// `STOP ||| SKIP` is such a row, where what has ended, `STOP` and `SKIP` are kept with their bytes and their steps.
pub fn a_small_row<A>()
    ensures { (bits : SideBits A) (omega_part stop_part skip_part : Part A) → IsOneNode omega_part (0x03 ∷ []) [] → IsOneNode stop_part (0x01 ∷ []) [] → IsOneNode skip_part (0x02 ∷ []) (ends ∷ [])
        → (z : Numbering) × IsRowByParts z (letters []) (small_row bits omega_part stop_part skip_part) }
{}
