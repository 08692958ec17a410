//! Laws of events by numbers.

ghost use Rattle.std.specs.Prelude.{◌≡◌, ◌↔◌, ℕ, Bool, List, None, map};
ghost use Rattle.theory_syntax.specs.Value.{Event, event_cmp};
ghost use Rattle.theory_syntax.specs.Process.{Omega, Process, Script};
ghost use Rattle.theory_semantics.specs.Meaning.Offers.{RisesBy};
ghost use Rattle.theory_shapes.specs.Operators.{CompositionHasValues, FrameHasValues};
ghost use Rattle.theory_shapes.specs.Shape.{Composition, Frame};
ghost use Rattle.csp_rows.specs.Numbering.{AreBitsOf, Numbering};
ghost use Rattle.csp_numbers.specs.Numbers.{NumbersEvents};
ghost use Rattle.csp_numbers.specs.Operators.{cause_in_composition, cause_in_frame};

/// Events that rise are numbered by their places, whatever the numbers of parts are.
pub fn events_are_numbered_by_their_places()
    ensures { (es : List Event) (part : ℕ → Process) → RisesBy event_cmp es → ((n : ℕ) → (part n ≡ Omega) ↔ (n ≡ 0))
        → (z : Numbering) × NumbersEvents es z × (z.part ≡ part) }
{}

/// What a test says of each event are the bits of the test.
pub fn tested_events_are_bits()
    ensures { (es : List Event) (z : Numbering) (test : Event → Bool) → NumbersEvents es z
        → AreBitsOf z test (map test es) }
{}

/// The sets of a composition have values exactly where there is no cause for which they have none.
pub fn compositions_have_values_without_a_cause()
    ensures { (script : Script) (c : Composition)
        → CompositionHasValues script c ↔ (cause_in_composition script c ≡ None) }
{}

/// What a frame has has a value exactly where there is no cause for which it has none.
pub fn frames_have_values_without_a_cause()
    ensures { (script : Script) (f : Frame) → FrameHasValues script f
        ↔ (cause_in_frame script f ≡ None) }
{}
