//! Texts, tokens, the grammar, and their refusals.
//!
//! Where a text is no script, its refusal and place are those of its tokens, of the grammar, or of the heights of its
//! declarations. With the facts that show tokens right. The language is a part of CSPM, as the manual of FDR has it.
#![tactic(auto)]

ghost use Rattle.std.specs.Prelude.{◌≡◌, ℕ, ◌⊎◌, List, [], ◌∷◌, ◌++◌, length, codes};
ghost use Rattle.theory_text.specs.Place.{Place, first_place};
ghost use Rattle.theory_text.specs.Spans.{RiseBetween, AreInRange};
ghost use Rattle.theory_text.specs.Token.{TokenLexeme, SignToken, NameToken, CloseSharedSign, CloseSquareSign, SlidingSign, ToLineEnd, ToMark, IsLongest, StartsWithNoLexeme, PlacedToken, AreTokens, TextFault, LargeNumber, IsTextRefusal};
ghost use Rattle.theory_text.specs.Raw.{RawDeadlockFree, RawDivergenceFree, RawDeclaration, RawScript};
ghost use Rattle.theory_text.specs.Grammar.{IsScript};
ghost use Rattle.theory_text.specs.Height.{tokens_height, IsParsed, GrammarFault, IsGrammarRefusal};
ghost use Rattle.theory_text.specs.Reading.{ReadingFault, IsRead, IsReadingRefusal, AreUnrefused, IsUnrefusedText};
ghost use Rattle.theory_text.specs.Samples.{at, assert_word, stop_word, deadlock_free_begun, joined_f, spaced_f, divergence_free_end, guarded_refinement, of_stop, not_guarded, behind_both, NotNegates};

/// A text has at most one list of tokens, and one place behind its last character.
pub fn tokens_are_one()
    ensures { (bytes : List ℕ) (ts us : List PlacedToken) (p q : Place) → AreTokens bytes ts p
        → AreTokens bytes us q → (ts ≡ us) × (p ≡ q) }
{}

/// A text has at most one refusal, at one place.
pub fn refusal_is_one()
    ensures { (bytes : List ℕ) (f g : TextFault) (p q : Place) → IsTextRefusal bytes f p
        → IsTextRefusal bytes g q → (f ≡ g) × (p ≡ q) }
{}

/// A text that has its tokens is not refused.
pub fn tokens_are_not_refused()
    ensures { (bytes : List ℕ) (ts : List PlacedToken) (p q : Place) (f : TextFault)
        → AreTokens bytes ts p → ¬ IsTextRefusal bytes f q }
{}

/// A text has its tokens or is refused.
pub fn text_is_divided_or_refused()
    ensures { (bytes : List ℕ) → ((ts : List PlacedToken) × (end : Place) × AreTokens bytes ts end)
        ⊎ ((f : TextFault) × (p : Place) × IsTextRefusal bytes f p) }
{}

/// The tokens of a text stand one behind the other, and no number among them is too large.
pub fn tokens_rise()
    ensures spans { (bytes : List ℕ) (ts : List PlacedToken) (end : Place) → AreTokens bytes ts end
        → RiseBetween 0 (length bytes) ts }
    ensures numbers { (bytes : List ℕ) (ts : List PlacedToken) (end : Place)
        → AreTokens bytes ts end → AreInRange ts }
{}

/// Tokens have at most one refusal of the grammar, at one place.
pub fn grammar_refusal_is_one()
    ensures { (ts : List PlacedToken) (end : Place) (f g : GrammarFault) (p q : Place) → IsGrammarRefusal ts end f p → IsGrammarRefusal ts end g q
        → (f ≡ g) × (p ≡ q) }
{}

/// A text has at most one refusal of its tokens and of the grammar together.
pub fn reading_refusal_is_one()
    ensures { (bytes : List ℕ) (f g : ReadingFault) (p q : Place) → IsReadingRefusal bytes f p
        → IsReadingRefusal bytes g q → (f ≡ g) × (p ≡ q) }
{}

/// Tokens with a tree within the limit of heights are not refused, nor is their text.
pub fn read_text_is_not_refused()
    ensures tokens { (ts : List PlacedToken) (s : RawScript) (end p : Place) (f : GrammarFault)
        → IsParsed ts s → ¬ IsGrammarRefusal ts end f p }
    ensures text { (bytes : List ℕ) (s : RawScript) (f : ReadingFault) (p : Place) → IsRead bytes s
        → ¬ IsReadingRefusal bytes f p }
{}

/// What `{-1}`, `--1`, `|]]`, `[>=` and `or' ` begin with, that `~` begins nothing, and that 2147483648 is too large.
pub fn longest_lexemes()
    ensures comment { IsLongest (codes "{-1}") 2 ToMark }
    ensures line { IsLongest (codes "--1") 2 ToLineEnd }
    ensures shared { IsLongest (codes "|]]") 2 (TokenLexeme (SignToken CloseSharedSign)) }
    ensures sliding { IsLongest (codes "[>=") 2 (TokenLexeme (SignToken SlidingSign)) }
    ensures primed { IsLongest (codes "or' ") 3 (TokenLexeme (NameToken (codes "or'"))) }
    ensures nothing { StartsWithNoLexeme (codes "~") }
    ensures large { IsTextRefusal (codes "2147483648") LargeNumber first_place }
{}

/// Assertions of deadlock and divergence freedom have their trees, in each way to write them. A `not` behind `assert`
/// negates, also before a guard. `]]` closes both brackets of `[deadlock free [F]]`.
pub fn small_assertions()
    ensures plain { IsScript (assert_word ∷ stop_word
        ∷ (deadlock_free_begun ++ at (SignToken CloseSquareSign) ∷ [])) (of_stop RawDeadlockFree) }
    ensures joined { IsScript (assert_word ∷ stop_word ∷ (deadlock_free_begun ++ joined_f))
        (of_stop RawDeadlockFree) }
    ensures spaced { IsScript (assert_word ∷ stop_word ∷ (deadlock_free_begun ++ spaced_f))
        (of_stop RawDeadlockFree) }
    ensures divergence { IsScript (assert_word ∷ stop_word ∷ divergence_free_end)
        (of_stop RawDivergenceFree) }
    ensures negated { IsScript (assert_word ∷ guarded_refinement) not_guarded }
    ensures negates { (t u : PlacedToken) (ts : List PlacedToken) (d : RawDeclaration)
        → NotNegates t u ts d }
    ensures closed { tokens_height behind_both ≡ 5 }
{}
