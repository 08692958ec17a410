//! Processes as rows of numbers.

ghost use Rattle.std.specs.Prelude.{◌≡◌, ◌↔◌, ◌<◌, ◌+◌, ◌≤◌, Bool, Contains, IsFalse, IsTrue, List, [], ◌∷◌, max, length, map, Some, ℕ};
ghost use Rattle.std.specs.List.{AllByRecursion, sum_by};
ghost use Rattle.theory_syntax.specs.Process.{Process, Script};
ghost use Rattle.theory_syntax.specs.Value.{Action, Tau, Tick};
ghost use Rattle.theory_shapes.specs.Shape.{Shape, fill, holes};
ghost use Rattle.theory_shapes.specs.Parts.{IsPart, parts_of, shape_of};
ghost use Rattle.theory_semantics.specs.Laws.Statements.{StepsAre};
ghost use Rattle.theory_semantics.specs.Meaning.Stepping.{Steps};
ghost use Rattle.theory_semantics.specs.Meaning.Transitions.{IsLarge, IsNotStuck, RuleStep};
ghost use Rattle.theory_semantics.specs.Meaning.Limits.{depth, fits, size};
ghost use Rattle.theory_spelling.specs.Spellable.{IsSpellable};
ghost use Rattle.theory_spelling.specs.Spelling.{spelling};
ghost use Rattle.theory_shapes.specs.Measures.{deepest, levels, own_depth, own_size};
ghost use Rattle.theory_shapes.specs.Pieces.{in_turn, part_run, pieces};
ghost use Rattle.theory_rows.specs.Fired.{IsRowFired, TargetsFit};
ghost use Rattle.theory_shapes.specs.Combining.{StepsTo};
ghost use Rattle.theory_shapes.specs.Moves.{Move, changes_from, moved_from, moves_from};
ghost use Rattle.theory_shapes.specs.ShapeSteps.{AreKnown};
ghost use Rattle.theory_rows.specs.Bare.{bare};
ghost use Rattle.theory_rows.specs.Tables.{AreAmong, AreTables, Extends, IsRowIn, IsRowOf, Row, Tables, parts_in, process_of, shape_in};
ghost use Rattle.theory_rows.specs.Grafts.{Graft, grafts_from, grafts_of, parts_by, parts_to, shape_by, shape_to};
ghost use Rattle.theory_rows.specs.GraftSteps.{graft_steps, led_to, steps_by};
ghost use Rattle.theory_rows.specs.Growing.{AddsPart, AddsParts, AddsProcess, AddsShape, Carries, Renumbering, renumbered};
ghost use Rattle.theory_rows.specs.InPlace.{AreChangesIn, StandsFor, changed_row, hole_graft};
ghost use Rattle.theory_shapes.specs.Changes as pure_changes;
ghost use Rattle.theory_rows.specs.Examples.{one_graft, part_row, small_steps, small_tables, two_row};
ghost use Rattle.csp_rows.specs.declared.changes.Change.{Change};
ghost use Rattle.csp_rows.specs.declared.numbers.PartId.{PartId};
ghost use Rattle.csp_rows.specs.Numbering.{Numbering};
ghost use Rattle.csp_rows.specs.Rows.{row_parts};
ghost use Rattle.csp_rows.specs.Runs.{changes_in};
ghost use Rattle.theory_shapes.specs.Changes.{changed};
ghost use Rattle.theory_rows.specs.Keys.{AreKeysOf, Key};
ghost use Rattle.theory_search.specs.Growth.{AreDistinct};
ghost use Rattle.theory_search.specs.Search as search;
ghost use Rattle.theory_search.specs.Search.{AreDistinctPairs, IsStored};
ghost use Rattle.theory_rows.specs.Targets.{AreGraftsIn, IsKnownOf, Known, new_parts, new_shape, row_after, row_led_to, row_steps};

/// A row of tables without repetition is taken apart into its shape and its parts, and no other row stands for its
/// process. A process has a row where its shape and its parts are in the tables.
pub fn processes_are_rows()
    ensures apart { (t : Tables) (r : Row) → AreTables t → IsRowIn t r
        → (shape_of (process_of t r) ≡ shape_in t r.shape)
        × (parts_of (process_of t r) ≡ parts_in t r.parts)
        × AllByRecursion IsPart (parts_in t r.parts) }
    ensures one { (t : Tables) (r q : Row) → AreTables t → IsRowIn t r → IsRowIn t q
        → process_of t r ≡ process_of t q → r ≡ q }
    ensures each { (t : Tables) (p : Process) → Contains t.shapes (shape_of p)
        → AllByRecursion (λ q. Contains t.parts q) (parts_of p) → (r : Row) × IsRowOf t p r }
{}

/// A shape is known by one term, which has `STOP` in each hole. It is within the limits where a term of the shape is, and
/// has a spelling of its own where such a term has one.
pub fn shapes_are_terms()
    ensures shape { (s : Shape) → shape_of (bare s) ≡ s }
    ensures one { (s q : Shape) → bare s ≡ bare q → s ≡ q }
    ensures fits { (p : Process) → IsTrue (fits p) → IsTrue (fits (bare (shape_of p))) }
    ensures spellable { (p : Process) → IsSpellable p → IsSpellable (bare (shape_of p)) }
    ensures spelled { (s : Shape) → spelling (bare s) ≡ in_turn 0 (pieces s) (part_run []) }
{}

/// What a move leads to is one shape with parts that have no operator that stays at their heads: those that come in are
/// taken apart too.
pub fn moves_lead_to_rows()
    ensures holes { (d : Move) (s : Shape) (parts : List Process) → length parts ≡ holes s
        → length (parts_to d s parts) ≡ holes (shape_to d s) }
    ensures filled { (d : Move) (s : Shape) (parts : List Process) → length parts ≡ holes s
        → moved_from d 0 s parts ≡ fill (shape_to d s) (parts_to d s parts) }
    ensures parts { (d : Move) (s : Shape) (parts : List Process) → AllByRecursion IsPart parts
        → AllByRecursion IsPart (parts_to d s parts) }
    ensures apart { (d : Move) (s : Shape) (parts : List Process) → length parts ≡ holes s
        → AllByRecursion IsPart parts
        → (shape_of (moved_from d 0 s parts) ≡ shape_to d s)
        × (parts_of (moved_from d 0 s parts) ≡ parts_to d s parts) }
{}

/// Its shape and its parts are made by what takes the places of others.
pub fn moves_are_grafts()
    ensures shape { (d : Move) (s : Shape) → shape_by s (grafts_from d 0 0 s) ≡ shape_to d s }
    ensures parts { (d : Move) (s : Shape) (parts : List Process) → length parts ≡ holes s
        → parts_by parts (grafts_from d 0 0 s) ≡ parts_to d s parts }
{}

/// The steps of a term are told by what takes the places of others, also where a step does not leave the shape as it is.
pub fn steps_are_grafts()
    ensures moves { (script : Script) (s : Shape) (parts : List Process) (known : List Steps)
        → map (λ m. (m.0, grafts_from m.1 0 0 s)) (moves_from script 0 s parts known)
        ≡ graft_steps script s parts known }
    ensures leads { (d : Move) (s : Shape) (parts : List Process) → length parts ≡ holes s
        → fill (shape_by s (grafts_from d 0 0 s)) (parts_by parts (grafts_from d 0 0 s))
        ≡ moved_from d 0 s parts }
    ensures steps { (script : Script) (s : Shape) (parts : List Process) (known : List Steps)
        → length parts ≡ holes s → AreKnown script s parts known
        → StepsAre script (fill s parts) (led_to s parts (graft_steps script s parts known)) }
{}

/// They are put together in one way, whatever the steps of the parts lead to, and hang on the parts in the holes alone.
pub fn steps_are_made_in_one_way()
    ensures each { (f : Row → Process) (script : Script) (over : Row)
        (known : ℕ → StepsTo Row) (ended : ℕ → Bool) (n k : ℕ) (s : Shape)
        → map (λ z. (z.0, grafts_of f z.1)) (steps_by script over known ended n k s)
        ≡ steps_by script (f over) (λ i. map (λ z. (z.0, f z.1)) (known i)) ended n k s }
    ensures alike { (script : Script) (over : Row) (known also : ℕ → StepsTo Row)
        (ended ends : ℕ → Bool) (n k : ℕ) (s : Shape)
        → ((i : ℕ) → n ≤ i → i < n + holes s → (known i ≡ also i) × (ended i ≡ ends i))
        → steps_by script over known ended n k s ≡ steps_by script over also ends n k s }
{}

/// Grafts of rows make what the grafts of their processes make. So what a move leads to is a row: the one of the new parts
/// and of the number of the new shape.
pub fn rows_lead_to_rows()
    ensures shape { (t : Tables) (r : Row) (gs : List (Graft Row)) → AreTables t → AreGraftsIn t gs
        → new_shape t r gs ≡ shape_by (shape_in t r.shape) (grafts_of (process_of t) gs) }
    ensures parts { (t : Tables) (r : Row) (gs : List (Graft Row)) → AreTables t → AreGraftsIn t gs
        → parts_in t (new_parts r gs) ≡ parts_by (parts_in t r.parts) (grafts_of (process_of t) gs) }
    ensures row { (t : Tables) (r : Row) (gs : List (Graft Row)) (d : Move) (n : ℕ) → AreTables t
        → IsRowIn t r → AreGraftsIn t gs
        → grafts_of (process_of t) gs ≡ grafts_from d 0 0 (shape_in t r.shape)
        → n < length t.shapes → shape_in t n ≡ new_shape t r gs
        → IsRowOf t (moved_from d 0 (shape_in t r.shape) (parts_in t r.parts)) (row_after n r gs) }
{}

/// From the steps of its parts, by rows, the steps of a row are told by numbers: these are all, and each leads to a row once
/// its shape has a number.
pub fn rows_step_by_numbers()
    ensures steps { (script : Script) (t : Tables) (r : Row) (k : Known) → AreTables t
        → IsRowIn t r → IsKnownOf script t r k
        → StepsAre script (process_of t r) (row_led_to t r (row_steps script t r k)) }
    ensures rows { (script : Script) (t : Tables) (r : Row) (k : Known) (x : Action) (gs : List
        (Graft Row)) (n : ℕ) → AreTables t → IsRowIn t r → IsKnownOf script t r k
        → Contains (row_steps script t r k) (x, gs) → n < length t.shapes
        → shape_in t n ≡ new_shape t r gs
        → IsRowOf t (fill (new_shape t r gs) (parts_in t (new_parts r gs))) (row_after n r gs)
        × RuleStep script (process_of t r) x (process_of t (row_after n r gs)) }
{}

/// A row whose parts were fired is fired by them: if its targets are within the limits it is not stuck and these are its
/// steps; if one is not, its process is large.
pub fn rows_are_fired_by_numbers()
    ensures within { (script : Script) (t : Tables) (r : Row) (k : Known)
        → IsRowFired script t r k → TargetsFit t r (row_steps script t r k)
        → IsNotStuck script (process_of t r) × ((x : Action) (u : Process)
        → RuleStep script (process_of t r) x u
        ↔ Contains (row_led_to t r (row_steps script t r k)) (x, u)) }
    ensures past { (script : Script) (t : Tables) (r : Row) (k : Known) (x : Action) (gs : List
        (Graft Row)) → IsRowFired script t r k → Contains (row_steps script t r k) (x, gs)
        → IsFalse (fits (fill (new_shape t r gs) (parts_in t (new_parts r gs))))
        → IsLarge script (process_of t r) }
{}

/// A row measures what its shape and its parts do, and is spelled by the pieces of its shape with its parts between them.
pub fn rows_are_measured_and_spelled()
    ensures size { (t : Tables) (r : Row) → IsRowIn t r
        → size (process_of t r) ≡ own_size (shape_in t r.shape) + sum_by size (parts_in t r.parts) }
    ensures depth { (t : Tables) (r : Row) → IsRowIn t r
        → depth (process_of t r) ≡ max (own_depth (shape_in t r.shape)) (deepest (levels (shape_in t
        r.shape)) (parts_in t r.parts)) }
    ensures spelled { (t : Tables) (r : Row)
        → spelling (process_of t r) ≡ in_turn 0 (pieces (shape_in t r.shape)) (part_run (parts_in t
        r.parts)) }
{}

/// A step that leaves the shape as it is changes numbers of a row in their places: by changes to parts of the table it
/// becomes the row of what the same changes make of its process.
pub fn rows_change_in_place()
    ensures parts { (z : Numbering) (t : Tables) (ns : List PartId) → StandsFor z t
        → AreAmong t ns → row_parts z ns ≡ parts_in t ns }
    ensures row { (z : Numbering) (t : Tables) (r : Row) (cs : List Change) → StandsFor z t
        → IsRowIn t r → AreChangesIn t cs
        → IsRowOf t (fill (shape_in t r.shape) (changed (changes_in z cs) (row_parts z r.parts)))
        (changed_row cs r) }
{}

/// The changes that are told of a step, where they are told, are grafts of holes.
pub fn changes_are_grafts()
    ensures { (d : Move) (s : Shape) (cs : List pure_changes.Change)
        → changes_from d 0 s ≡ Some cs → grafts_from d 0 0 s ≡ map (hole_graft 0 0 (levels s)) cs }
{}

/// A number keeps what it stands for while the tables grow: a row stays one of the same process, what is known of its parts
/// stays known, and what grafts make of it stays.
pub fn tables_grow()
    ensures none { (t : Tables) → Extends t t }
    ensures both { (t u v : Tables) → Extends t u → Extends u v → Extends t v }
    ensures rows { (t u : Tables) (r : Row) → Extends t u → IsRowIn t r
        → IsRowOf u (process_of t r) r }
    ensures known { (script : Script) (t u : Tables) (r : Row) (k : Known) → Extends t u
        → IsRowIn t r → IsKnownOf script t r k → IsKnownOf script u r k }
    ensures grafts { (t u : Tables) (r : Row) (gs : List (Graft Row)) → Extends t u → IsRowIn t r
        → AreGraftsIn t gs → AreGraftsIn u gs × (new_shape u r gs ≡ new_shape t r gs) }
{}

/// Tables without repetition stay so where a shape or a part is added that is new, and a process has a row once its shape
/// and its parts have been added.
pub fn tables_stay_distinct()
    ensures shape { (s : Shape) (t u : Tables) → AddsShape s t u → Extends t u × (AreTables t
        → AreTables u) × Contains u.shapes s }
    ensures part { (p : Process) (t u : Tables) → IsPart p → AddsPart p t u
        → Extends t u × (AreTables t → AreTables u) × Contains u.parts p }
    ensures parts { (ps : List Process) (t u : Tables) → AllByRecursion IsPart ps
        → AddsParts ps t u → Extends t u × (AreTables t
        → AreTables u) × AllByRecursion (λ p. Contains u.parts p) ps }
    ensures process { (p : Process) (t u : Tables) → AddsProcess p t u
        → Extends t u × (AreTables t → AreTables u) × ((r : Row) × IsRowOf u p r) }
{}

/// Where each number of one table has that of the same in another, its rows stand for the same processes there. It stays so
/// while the other grows.
pub fn rows_are_renumbered()
    ensures rows { (own shared : Tables) (m : Renumbering) (r : Row) → Carries own shared m
        → IsRowIn own r → IsRowOf shared (process_of own r) (renumbered m r) }
    ensures later { (own shared more : Tables) (m : Renumbering) → Carries own shared m
        → Extends shared more → Carries own more m }
{}

/// Pairs of a node and a term are the same exactly where their keys are. So rows of distinct keys are distinct pairs, and a
/// pair is stored exactly where its key is.
pub fn pairs_are_known_by_keys()
    ensures same { (t : Tables) (k j : Key) → AreTables t → IsRowIn t k.1 → IsRowIn t j.1
        → (k ≡ j) ↔ ((k.0 ≡ j.0) × (process_of t k.1 ≡ process_of t j.1)) }
    ensures distinct { (t : Tables) (keys : List Key) (rows : List search.Row) → AreTables t
        → AreKeysOf t keys rows → AreDistinct keys ↔ AreDistinctPairs rows }
    ensures stored { (t : Tables) (keys : List Key) (rows : List search.Row) (k : Key)
        → AreTables t → AreKeysOf t keys rows → IsRowIn t k.1
        → Contains keys k ↔ IsStored rows k.0 (process_of t k.1) }
{}

/// In `(SKIP \ {}) ||| STOP`, `SKIP ||| SKIP` and two sides that have ended, by numbers: a frame that ends makes another
/// shape, a part that ends stays in its hole, and where both have ended one part is left.
pub fn small_rows_step_by_numbers()
    ensures frame { small_steps 2 1 2 ≡ (Tau, one_graft 0 1 1 (part_row 0)) ∷ [] }
    ensures shape { new_shape small_tables (two_row 2 1 2) (one_graft 0 1 1 (part_row 0))
        ≡ shape_in small_tables 1 }
    ensures row { row_after 1 (two_row 2 1 2) (one_graft 0 1 1 (part_row 0)) ≡ two_row 1 0 2 }
    ensures part { small_steps 1 1 1 ≡ (Tau, one_graft 0 1 1 (part_row 0)) ∷ (
      Tau,
      one_graft 1 2 1
          (part_row 0),
    ) ∷ [] }
    ensures kept { new_shape small_tables (two_row 1 1 1) (one_graft 0 1 1 (part_row 0))
        ≡ shape_in small_tables 1 }
    ensures ended { small_steps 1 0 0 ≡ (Tick, one_graft 0 2 0 (part_row 0)) ∷ [] }
    ensures alone { new_shape small_tables (two_row 1 0 0) (one_graft 0 2 0 (part_row 0))
        ≡ shape_in small_tables 0 }
    ensures left { row_after 0 (two_row 1 0 0) (one_graft 0 2 0 (part_row 0)) ≡ part_row 0 }
{}
