//! The order of the steps of a shape.

ghost use Rattle.std.specs.Prelude.{◌≡◌, ◌<◌, ◌↔◌, ◌∷◌, Contains, List, length, map, slice_get, Some, suc, ℕ};
ghost use Rattle.std.specs.declared.cmp.Ordering.TheVariants.{Equal};
ghost use Rattle.std.specs.Cmp.Lexicographic.{slice_cmp};
ghost use Rattle.std.specs.List.{AllByRecursion};
ghost use Rattle.std.specs.Ordering.{ordering_then};
ghost use Rattle.theory_syntax.specs.Order.{process_cmp};
ghost use Rattle.theory_syntax.specs.Process.{Process, Script};
ghost use Rattle.theory_syntax.specs.Value.{Action, Event, action_cmp, event_cmp};
ghost use Rattle.theory_semantics.specs.Meaning.Expansions.{IsFired, offers_cmp, step_cmp};
ghost use Rattle.theory_semantics.specs.Meaning.Offers.{IsRising, RisesBy};
ghost use Rattle.theory_semantics.specs.Meaning.Stepping.{Steps};
ghost use Rattle.theory_shapes.specs.Changes.{Change, RiseWithin, changed};
ghost use Rattle.theory_shapes.specs.Shape.{Shape, fill, holes, part_at};
ghost use Rattle.theory_shapes.specs.ShapeSteps.{IsAcceptedBy, IsShown, changed_by};
ghost use Rattle.csp_rows.specs.declared.changes.Change as by_number;
ghost use Rattle.csp_rows.specs.declared.numbers.ActionId.{ActionId};
ghost use Rattle.csp_rows.specs.declared.numbers.PartId.{PartId};
ghost use Rattle.csp_rows.specs.declared.step.Step.{Step};
ghost use Rattle.csp_rows.specs.Numbering.{IsNumbered, Numbering, action_at};
ghost use Rattle.csp_rows.specs.Rows.{row_parts};
ghost use Rattle.csp_rows.specs.Runs.{AreNumbered, changing_of};
ghost use Rattle.csp_rows.specs.InOrder.{AreActionsOf, IsRowInOrder, offers_in, offers_of};
ghost use Rattle.csp_rows.specs.Numbers.{AreAllNumbered, EventsRise, number_cmp, step_number_cmp};
ghost use Rattle.csp_rows.specs.OrderedTargets.{changing_cmp, parts_cmp, targets_cmp};

/// Of two terms that are one shape with parts in its holes, the first parts that differ decide, from the left.
pub fn filled_shapes_are_ordered_by_parts()
    ensures { (s : Shape) (ps qs : List Process) → length ps ≡ holes s → length qs ≡ holes s
        → process_cmp (fill s ps) (fill s qs) ≡ parts_cmp ps qs }
{}

/// So of two targets of a shape, the first changes decide: a part that comes in stands against the one that comes in there
/// by the other step, or else against the one that stays there.
pub fn targets_are_ordered_by_changes()
    ensures whole { (s : Shape) (parts : List Process) (cs ds : List Change) → length parts ≡ holes s
        → process_cmp (fill s (changed cs parts)) (fill s (changed ds parts)) ≡ targets_cmp parts cs ds }
    ensures same { (parts : List Process) (cs : List Change) → targets_cmp parts cs cs ≡ Equal }
    ensures left { (parts : List Process) (n : ℕ) (c : Change) (cs ds : List Change) → RiseWithin n (length parts) (c ∷ cs) → RiseWithin (suc c.hole) (length parts) ds
        → targets_cmp parts (c ∷ cs) ds ≡ ordering_then (process_cmp c.part (part_at parts c.hole)) (targets_cmp parts cs ds) }
    ensures right { (parts : List Process) (n : ℕ) (d : Change) (cs ds : List Change) → RiseWithin n (length parts) (d ∷ ds) → RiseWithin (suc d.hole) (length parts) cs
        → targets_cmp parts cs (d ∷ ds) ≡ ordering_then (process_cmp (part_at parts d.hole) d.part) (targets_cmp parts cs ds) }
    ensures both { (parts : List Process) (n k : ℕ) (c d : Change) (cs ds : List Change) → c.hole ≡ d.hole → RiseWithin n (length parts) (c ∷ cs) → RiseWithin k (length parts) (d ∷ ds)
        → targets_cmp parts (c ∷ cs) (d ∷ ds) ≡ ordering_then (process_cmp c.part d.part) (targets_cmp parts cs ds) }
{}

/// The steps of a shape have the order of their changes.
pub fn steps_are_ordered_by_changes()
    ensures two { (s : Shape) (parts : List Process) (m n : Action × List Change) → length parts ≡ holes s
        → step_cmp (m.0, fill s (changed m.1 parts)) (n.0, fill s (changed n.1 parts)) ≡ changing_cmp parts m n }
    ensures rise { (s : Shape) (parts : List Process) (ms : List (Action × List Change)) → length parts ≡ holes s
        → RisesBy (changing_cmp parts) ms ↔ RisesBy step_cmp (changed_by s parts ms) }
{}

/// Where events that rise have their places for numbers, they have the order of these.
pub fn events_are_ordered_by_places()
    ensures { (z : Numbering) (es : List Event) → RisesBy event_cmp es → z.events ≡ length es
        → ((n : ℕ) → n < length es → slice_get es n ≡ Some (z.event n)) → EventsRise z }
{}

/// And so have actions, lists of them, and lists of such lists.
pub fn actions_are_ordered_by_numbers()
    ensures two { (z : Numbering) (x y : ActionId) → EventsRise z → IsNumbered z.events x
        → IsNumbered z.events y → action_cmp (action_at z x) (action_at z y) ≡ number_cmp x y }
    ensures lists { (z : Numbering) (xs ys : List ActionId) → EventsRise z → AreAllNumbered z.events xs → AreAllNumbered z.events ys
        → offers_cmp (map (action_at z) xs) (map (action_at z) ys) ≡ slice_cmp number_cmp xs ys }
    ensures rise { (z : Numbering) (xs : List ActionId) → EventsRise z → AreAllNumbered z.events xs
        → RisesBy number_cmp xs → IsRising (map (action_at z) xs) }
    ensures offers { (z : Numbering) (offers : List (List ActionId)) → EventsRise z → AllByRecursion (AreAllNumbered z.events) offers
        → RisesBy (slice_cmp number_cmp) offers → RisesBy offers_cmp (offers_in z offers) }
{}

/// The steps of a shape with a row of parts in its holes have the order of the numbers of their actions, and then of their
/// changes.
pub fn steps_are_ordered_by_numbers()
    ensures { (z : Numbering) (row : List PartId) (pool : List by_number.Change) (steps : List Step) → EventsRise z → AreNumbered z.events steps
        → RisesBy (step_number_cmp z row pool) steps ↔ RisesBy (changing_cmp (row_parts z row)) (changing_of z pool steps) }
{}

/// What a term accepts is told by the numbers of the actions of its steps, in order, each once.
pub fn accepted_by_numbers()
    ensures each { (z : Numbering) (pool : List by_number.Change) (steps : List Step) (actions : List ActionId) → EventsRise z → AreNumbered z.events steps → AreActionsOf steps actions
        → (xs : List Action) → IsAcceptedBy (changing_of z pool steps) xs ↔ Contains (offers_in z (offers_of actions)) xs }
    ensures rise { (z : Numbering) (pool : List by_number.Change) (steps : List Step) (actions : List ActionId) → EventsRise z → AreNumbered z.events steps → AreActionsOf steps actions
        → RisesBy offers_cmp (offers_in z (offers_of actions)) }
{}

/// What is shown of a term, in order and each once, is what firing it gives.
pub fn shown_in_order_is_fired()
    ensures { (script : Script) (t : Process) (steps : Steps) (offers : List (List Action)) → IsShown script t steps offers → RisesBy step_cmp steps → RisesBy offers_cmp offers
        → IsFired script t steps offers }
{}

/// So are the steps of a row of parts, put in order by numbers, each once, with the acceptances by their actions.
pub fn fired_by_numbers()
    ensures { (z : Numbering) (script : Script) (s : Shape) (row : List PartId) (known : List Steps) (pool : List by_number.Change) (steps sorted : List Step) (actions : List ActionId)
        → EventsRise z → IsRowInOrder z script s row known pool steps sorted actions
        → IsFired script (fill s (row_parts z row)) (changed_by s (row_parts z row) (changing_of z pool sorted)) (offers_in z (offers_of actions)) }
{}
