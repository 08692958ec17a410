//! The events of a script: all that its terms can do.

ghost use Rattle.std.specs.Prelude.{◌≡◌, ◌<◌, ◌↔◌, ℕ, Contains, get_or, length, nat_eq};
ghost use Rattle.theory_syntax.specs.Value.{Ev, Event, event_cmp, event_eq};
ghost use Rattle.theory_syntax.specs.Process.{Process, Script};
ghost use Rattle.theory_semantics.specs.Kinds.Scripts.{IsCheckedScript};
ghost use Rattle.theory_semantics.specs.Meaning.Offers.{RisesBy};
ghost use Rattle.theory_semantics.specs.Meaning.Transitions.{RuleStep};
ghost use Rattle.theory_shapes.specs.Alphabet.{FieldSetsRise, IsEventOf, alphabet};

/// A term does no event but those of the script.
pub fn steps_are_by_events_of_the_script()
    ensures { (script : Script) (t : Process) (e : Event) (u : Process) → RuleStep script t (Ev e) u
        → IsEventOf script e }
{}

/// The alphabet has exactly these events.
pub fn alphabet_has_all_events()
    ensures { (script : Script) (e : Event) → IsEventOf script e ↔ Contains (alphabet script) e }
{}

/// It rises where the field sets do, so each event stands at one place.
pub fn alphabet_rises()
    ensures { (script : Script) → FieldSetsRise script → RisesBy event_cmp (alphabet script) }
{}

/// That of a checked script rises, and so each event has a number of its own: its place in it.
pub fn events_have_their_own_numbers()
    ensures rises { (script : Script) → IsCheckedScript script
        → RisesBy event_cmp (alphabet script) }
    ensures apart { (script : Script) → IsCheckedScript script → (n m : ℕ) (d : Event) → n < length (alphabet script) → m < length (alphabet script)
        → event_eq (get_or (alphabet script) n d) (get_or (alphabet script) m d) ≡ nat_eq n m }
{}
