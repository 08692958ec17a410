//! What a search over names at once, and its outcome, tell of a script.

ghost use Rattle.theory_syntax.specs.Process.{Assertion, Script};
ghost use Rattle.theory_syntax.specs.Readings.{at_once, by_tau};
ghost use Rattle.theory_search.specs.Outcome.{Bounds, Outcome};
ghost use Rattle.theory_search.specs.Truth.{IsRightAsWritten};
ghost use Rattle.theory_unfolding.specs.Assertions.{IsUnfoldedAssertion};
ghost use Rattle.theory_unfolding.specs.Told.{FailsByTau, HaveOneWord, HoldsByTau, IsTrueByTau, SticksByTau};

/// A search that holds shows that the assertion holds by tau, one that fails a violation by tau with the same trace and
/// evidence, and one that stops at a faulty or large term that a stuck term is reached by tau.
pub fn told_at_once_is_so_by_tau()
    ensures holds { (script : Script) → HoldsByTau script }
    ensures fails { (script : Script) → FailsByTau script }
    ensures stuck { (script : Script) → SticksByTau script }
{}

/// What the right outcome of an unfolded assertion says, with names at once, is so by tau of the assertion as it is written.
pub fn outcomes_at_once_are_true_by_tau()
    ensures { (script : Script) (a b : Assertion) (bounds : Bounds) (o : Outcome) → IsUnfoldedAssertion script a b →
        IsRightAsWritten (at_once script) b bounds o → IsTrueByTau script a o }
{}

/// The right outcomes in the two readings never say the one that an assertion holds and the other that it fails, whatever the
/// limits are.
pub fn outcomes_have_one_word()
    ensures { (script : Script) (a b : Assertion) (bounds others : Bounds) (o p : Outcome) → IsUnfoldedAssertion script a b →
        IsRightAsWritten (at_once script) b bounds o → IsRightAsWritten (by_tau script) a others p → HaveOneWord o p }
{}
