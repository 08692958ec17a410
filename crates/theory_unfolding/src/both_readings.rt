//! Names that are unfolded at once.

ghost use Rattle.std.specs.Prelude.{◌≡◌, ◌↔◌, List, [], ◌∷◌, IfSome};
ghost use Rattle.theory_syntax.specs.Value.{Tau};
ghost use Rattle.theory_syntax.specs.Expression.{no_expressions};
ghost use Rattle.theory_syntax.specs.Process.{EventSet, RenamingPair, ByTau, Interrupt, GeneralisedParallel, AlphabetisedParallel, Renaming, SlidingChoice, Process, Stop, Skip, Omega, ExternalChoice, Interleaving, Sequential, Hiding, Guard, Model, Assertion, specification_of, Script};
ghost use Rattle.theory_semantics.specs.Meaning.Unfolding.{settled};
ghost use Rattle.theory_semantics.specs.Meaning.Stepping.{rule_steps};
ghost use Rattle.theory_semantics.specs.Meaning.Runs.{NoneStuck};
ghost use Rattle.theory_semantics.specs.Meaning.Divergence.{Diverges};
ghost use Rattle.theory_semantics.specs.Meaning.Properties.{IsDeadlockFree, IsDivergenceFree, HoldsPlainly};
ghost use Rattle.theory_semantics.specs.Meaning.Refinement.{Refines};
ghost use Rattle.theory_semantics.specs.Meaning.Violations.{Violation, IsViolation, HoldsAsWritten};
ghost use Rattle.theory_semantics.specs.Laws.Terms.{letter, plain, just, a_stop, send, send_x, num};
ghost use Rattle.theory_search.specs.Terms.{IsAssertionOf};
ghost use Rattle.theory_syntax.specs.Readings.{by_tau, at_once};
ghost use Rattle.theory_unfolding.specs.Unfolded.{IsUnfoldedTo};
ghost use Rattle.theory_unfolding.specs.Assertions.{IsUnfoldedAssertion, settled_assertion, SidesNeverStick, HasViolationLike};
ghost use Rattle.theory_unfolding.specs.Laws.{TausUnfold, StepsAtOnceAreSteps, StepsAreFollowed, FitsBefore, HasNoCauseBefore, IsNotStuckBefore, StickTogether, NeverStickTogether, StableTermsAreSettled, AcceptancesAreKept, AcceptancesAreReal};
ghost use Rattle.theory_unfolding.specs.Worked.{p_and_q, call, steps_of, p_is_p, p_of_x, p_at_x, both_bits};

/// A settled term is the term with some active calls unfolded, and so are the sides of a settled assertion.
pub fn settled_terms_are_unfolded()
    ensures term { (script : Script) (t : Process) → IsUnfoldedTo script t
        (settled (at_once script) t) }
    ensures assertion { (script : Script) (a : Assertion)
        → IsUnfoldedAssertion script a (settled_assertion (at_once script) a) }
    ensures itself { (script : Script) (a : Assertion) → IsUnfoldedAssertion script a a }
{}

/// The sides of a settled assertion are terms of the script, as they were, and where names do a tau it is the same assertion.
pub fn settled_sides_stay_terms()
    ensures terms { (script : Script) (a : Assertion) → IsAssertionOf script a
        → IsAssertionOf script (settled_assertion script a) }
    ensures by_tau { (script : Script) (a : Assertion) → script.unfolds ≡ ByTau
        → settled_assertion script a ≡ a }
{}

/// What unfolding does is what the taus of the calls do: a term runs to what it is unfolded to, each step at once is a step,
/// and each step of the term is a tau of that kind or a step of what it is unfolded to.
pub fn unfolding_is_taus()
    ensures taus { (script : Script) → TausUnfold script }
    ensures real { (script : Script) → StepsAtOnceAreSteps script }
    ensures followed { (script : Script) → StepsAreFollowed script }
{}

/// An operator is settled by settling the sides that it stays with, and by tau nothing is settled.
pub fn operators_are_settled_by_their_sides()
    ensures choice { (script : Script) (p q : Process)
        → settled script (ExternalChoice p q)
        ≡ ExternalChoice (settled script p) (settled script q) }
    ensures sequence { (script : Script) (p q : Process)
        → settled script (Sequential p q) ≡ Sequential (settled script p) q }
    ensures interleaving { (script : Script) (p q : Process)
        → settled script (Interleaving p q) ≡ Interleaving (settled script p) (settled script q) }
    ensures interrupt { (script : Script) (p q : Process)
        → settled script (Interrupt p q) ≡ Interrupt (settled script p) (settled script q) }
    ensures generalised { (script : Script) (p q : Process) (a : EventSet)
        → settled script (GeneralisedParallel p a q)
        ≡ GeneralisedParallel (settled script p) a (settled script q) }
    ensures alphabetised { (script : Script) (p q : Process) (a b : EventSet)
        → settled script (AlphabetisedParallel p a b q)
        ≡ AlphabetisedParallel (settled script p) a b (settled script q) }
    ensures hidden { (script : Script) (p : Process) (a : EventSet)
        → settled script (Hiding p a) ≡ Hiding (settled script p) a }
    ensures renamed { (script : Script) (p : Process) (rs : List RenamingPair)
        → settled script (Renaming p rs) ≡ Renaming (settled script p) rs }
    ensures sliding { (script : Script) (p q : Process)
        → settled script (SlidingChoice p q) ≡ SlidingChoice (settled script p) q }
    ensures by_tau { (script : Script) (p : Process) → settled (by_tau script) p ≡ p }
    ensures read_by_tau { (script : Script) (p : Process) → script.unfolds ≡ ByTau
        → settled script p ≡ p }
{}

/// Unfolding makes no term fit, takes no cause from it and frees none that is stuck.
pub fn unfolding_hides_nothing()
    ensures limits { (script : Script) → FitsBefore script }
    ensures causes { (script : Script) → HasNoCauseBefore script }
    ensures stuck { (script : Script) → IsNotStuckBefore script }
{}

/// A stuck term is reached in both readings or in none.
pub fn stuck_in_both_or_in_none()
    ensures some { (script : Script) → StickTogether script }
    ensures none { (script : Script) → NeverStickTogether script }
    ensures sides { (script : Script) (a b : Assertion) → IsUnfoldedAssertion script a b
        → SidesNeverStick (at_once script) b ↔ SidesNeverStick (by_tau script) a }
{}

/// Stable terms are settled, and offers are the same in both readings.
pub fn offers_are_the_same()
    ensures stable { (script : Script) → StableTermsAreSettled script }
    ensures kept { (script : Script) → AcceptancesAreKept script }
    ensures real { (script : Script) → AcceptancesAreReal script }
{}

/// Names that are unfolded at once keep refinement, in both models.
pub fn names_at_once_keep_refinement()
    ensures as_they_are { (script : Script) (model : Model) (spec impl : Process) → NoneStuck (at_once script) spec → NoneStuck (at_once script) impl →
        Refines (at_once script) model spec impl ↔ Refines (by_tau script) model spec impl }
    ensures unfolded { (script : Script) (model : Model) (spec new_spec impl new_impl : Process) → IsUnfoldedTo script spec new_spec → IsUnfoldedTo script impl new_impl →
        NoneStuck (at_once script) new_spec → NoneStuck (at_once script) new_impl → Refines (at_once script) model new_spec new_impl ↔ Refines (by_tau script) model spec impl }
{}

/// They keep freedom of deadlock and of divergence.
pub fn names_at_once_keep_freedom()
    ensures deadlock { (script : Script) (t v : Process) → IsUnfoldedTo script t v
        → NoneStuck (at_once script) v → IsDeadlockFree (at_once script) v
        ↔ IsDeadlockFree (by_tau script) t }
    ensures divergence { (script : Script) (t v : Process) → IsUnfoldedTo script t v
        → NoneStuck (at_once script) v → IsDivergenceFree (at_once script) v
        ↔ IsDivergenceFree (by_tau script) t }
    ensures diverges { (script : Script) (t v : Process) → IsUnfoldedTo script t v
        → NoneStuck (at_once script) v → Diverges (at_once script) v ↔ Diverges (by_tau script) t }
{}

/// Every assertion, with its sides as they are or unfolded, has the same answer in both readings: but for its `not`, and as
/// it is written.
pub fn assertions_have_the_same_answer()
    ensures plainly { (script : Script) (a b : Assertion) → IsUnfoldedAssertion script a b
        → SidesNeverStick (at_once script) b → HoldsPlainly (at_once script) b
        ↔ HoldsPlainly (by_tau script) a }
    ensures written { (script : Script) (a b : Assertion) → IsUnfoldedAssertion script a b
        → SidesNeverStick (at_once script) b → HoldsAsWritten (at_once script) b
        ↔ HoldsAsWritten (by_tau script) a }
{}

/// What shows that an assertion fails at once shows it by tau, with the same trace and the same evidence, where no term of
/// the specification is stuck. So it does the other way round, where none of the implementation is stuck either.
pub fn violations_are_the_same()
    ensures real { (script : Script) (a b : Assertion) (v : Violation) → IsUnfoldedAssertion script a b → IfSome (specification_of b.property) (NoneStuck (at_once script)) →
        IsViolation (at_once script) b v → HasViolationLike (by_tau script) a v }
    ensures found { (script : Script) (a b : Assertion) (v : Violation) → IsUnfoldedAssertion script a b → SidesNeverStick (at_once script) b →
        IsViolation (by_tau script) a v → HasViolationLike (at_once script) b v }
{}

/// With `P = a -> P` and `Q = P`: the calls of `P ||| Q` are unfolded beside each other and in a row, and so is the one of
/// `P ; Q` that is active. The second of a prefix is not.
pub fn calls_beside_each_other()
    ensures both { settled p_and_q (Interleaving (call 0) (call 1))
        ≡ Interleaving (plain 0 (call 0)) (plain 0 (call 0)) }
    ensures first { settled p_and_q (Sequential (call 0) (call 1))
        ≡ Sequential (plain 0 (call 0)) (call 1) }
    ensures under { settled p_and_q (Hiding (call 1) (just 1))
        ≡ Hiding (plain 0 (call 0)) (just 1) }
    ensures behind { settled p_and_q (plain 1 (call 0)) ≡ plain 1 (call 0) }
    ensures by_tau { settled (by_tau p_and_q) (call 0) ≡ call 0 }
{}

/// Their steps: no tau stands between one `a` of `P` and the next.
pub fn steps_of_unfolded_names()
    ensures event { steps_of (plain 0 (call 0)) ≡ (letter 0, plain 0 (call 0)) ∷ [] }
    ensures call { steps_of (call 1) ≡ (Tau, plain 0 (call 0)) ∷ [] }
    ensures sides { steps_of (Interleaving (plain 0 (call 0)) (plain 1 Stop))
        ≡ (letter 0, Interleaving (plain 0 (call 0)) (plain 1 Stop)) ∷ (letter 1, Interleaving (plain 0 (call 0)) Stop) ∷ [] }
    ensures after { steps_of (Sequential Skip (call 0)) ≡ (Tau, plain 0 (call 0)) ∷ [] }
{}

/// `P = P` is unfolded to itself, and still diverges.
pub fn names_of_nothing()
    ensures itself { settled p_is_p (call 0) ≡ call 0 }
    ensures diverges { Diverges p_is_p (call 0) }
{}

/// With `P(x) = c!x -> STOP`: `||| x:{0,1} @ P(x)` is unfolded to the two bodies, and `||| x:{0,1} @ c!x -> STOP` is left.
pub fn instances_are_unfolded()
    ensures calls { settled p_of_x (both_bits p_at_x)
        ≡ Interleaving (send (num 0) Stop) (send (num 1) Stop) }
    ensures prefixes { settled p_of_x (both_bits send_x) ≡ both_bits send_x }
{}
