//! Laws of parts by numbers.

ghost use Rattle.std.specs.Prelude.{◌≡◌, List, Some, length, slice_get};
ghost use Rattle.theory_syntax.specs.Process.{Omega, Process};
ghost use Rattle.theory_syntax.specs.Value.{Event, event_cmp};
ghost use Rattle.theory_semantics.specs.Meaning.Offers.{RisesBy};
ghost use Rattle.theory_search.specs.Growth.{AreDistinct, StaysIn};
ghost use Rattle.csp_numbers.specs.Numbers.{NumbersEvents};
ghost use Rattle.csp_rows.specs.declared.step.PartStep.{PartStep};
ghost use Rattle.csp_rows.specs.Numbering.{Numbering};
ghost use Rattle.csp_rows.specs.Rows.{AreTargetsAmong};
ghost use Rattle.kept_parts.specs.Places.{NumbersParts, steps_in};

/// There is a numbering of events that rise and of parts that differ, by their places, where the first part alone has
/// ended.
pub fn parts_are_numbered_by_their_places()
    ensures { (es : List Event) (ps : List Process) → RisesBy event_cmp es → slice_get ps 0 ≡ Some Omega → AreDistinct ps
        → (z : Numbering) × NumbersEvents es z × NumbersParts ps z }
{}

/// More parts change no step that is kept.
pub fn more_parts_change_no_step()
    ensures { (es : List Event) (ps more : List Process) (ss : List PartStep) → StaysIn ps more → AreTargetsAmong (length ps) ss
        → steps_in es more ss ≡ steps_in es ps ss }
{}
