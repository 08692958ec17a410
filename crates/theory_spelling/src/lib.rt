//! The spelling of terms as bytes, and reading them back.
//!
//! A term is spelled by a tag byte for its form, and then by its parts in the order of the text. A number takes four
//! bytes, the lowest first; a list is its length and its items. A term has a spelling of its own where its numbers are
//! below 2 ^ 32, its whole numbers are of 32 bits, its lists have fewer than 2 ^ 32 items, and the members of its sets
//! rise. Such numbers are said to be in range, and such lists to be short.
#![tactic(auto)]

ghost use Rattle.std.specs.Prelude.{◌≡◌, ◌≤◌, ◌↔◌, IsTrue, ℕ, List, [], ◌∷◌, ◌++◌, length, Some, pos};
ghost use Rattle.theory_syntax.specs.Value.{Integer, Constructor, no_values, value_and, Action};
ghost use Rattle.theory_syntax.specs.Expression.{Literal, ConstructorOf, no_expressions, expression_and};
ghost use Rattle.theory_syntax.specs.Process.{Process, Prefix, Given, Stop, Skip, SlidingChoice, Script};
ghost use Rattle.theory_semantics.specs.Meaning.Limits.{fits};
ghost use Rattle.theory_semantics.specs.Meaning.Transitions.{Step};
ghost use Rattle.theory_semantics.specs.Meaning.Runs.{Run};
ghost use Rattle.theory_semantics.specs.Kinds.Kind.{Kinds, Scope};
ghost use Rattle.theory_semantics.specs.Kinds.Processes.{IsWellKinded};
ghost use Rattle.theory_semantics.specs.Kinds.Scripts.{IsTermOf};
ghost use Rattle.theory_spelling.specs.Spelling.{value_spelling, expression_spelling, spelling};
ghost use Rattle.theory_spelling.specs.Spellable.{IsSpellable};
ghost use Rattle.theory_spelling.specs.Packable.{IsPackable};
ghost use Rattle.theory_spelling.specs.Ranges.{IsInRange};
ghost use Rattle.theory_spelling.specs.Reading.{IsBytes, process_at, term_of};

/// What is spelled is read again, whatever is behind it. A term nests no deeper than its spelling is long.
pub fn spelled_is_read_again()
    ensures front { (p : Process) (rest : List ℕ) (n : ℕ) → IsSpellable p → length (spelling p) ≤ n
        → process_at n (spelling p ++ rest) ≡ Some (p, rest) }
    ensures whole { (p : Process) → IsSpellable p → term_of (spelling p) ≡ Some p }
{}

/// What is read of bytes is spelled by all of them.
pub fn read_is_spelled_so()
    ensures { (bytes : List ℕ) (p : Process) → IsBytes bytes → term_of bytes ≡ Some p
        → (spelling p ≡ bytes) × IsSpellable p }
{}

/// No spelling is a beginning of another one: where two terms are spelled at the front of the same bytes, they are the
/// same, and so are the bytes behind them.
pub fn no_spelling_begins_another()
    ensures front { (p q : Process) (more other : List ℕ) → IsSpellable p → IsSpellable q
        → spelling p ++ more ≡ spelling q ++ other → (p ≡ q) × (more ≡ other) }
    ensures longer { (p q : Process) (b : ℕ) (more : List ℕ) → IsSpellable p → IsSpellable q
        → spelling p ++ b ∷ more ≡ spelling q → ⊥ }
{}

/// A term within the limits has short lists: it has no more items than nodes.
pub fn terms_within_the_limits_have_short_lists()
    ensures { (p : Process) → IsTrue (fits p) → IsPackable p }
{}

/// A well-kinded term with short lists, whose numbers are in range, has a spelling of its own, since the members of its
/// sets rise. So has each term of a checked script that is within the limits, whose numbers are in range.
pub fn well_kinded_terms_are_spellable()
    ensures kinded { (script : Script) (kinds : Kinds) (scope : Scope) (p : Process)
        → IsWellKinded script kinds scope p → IsPackable p → IsInRange p → IsSpellable p }
    ensures of_script { (script : Script) (p : Process) → IsTermOf script p → IsTrue (fits p)
        → IsInRange p → IsSpellable p }
{}

/// What a step leads to has short lists. So has all that a run leads to from a term that has them; and where the first is
/// a term of a checked script, and the numbers of the last are in range, that one has a spelling of its own.
pub fn reached_terms_are_spellable()
    ensures target { (script : Script) (t : Process) (x : Action) (u : Process) → Step script t x u
        → IsPackable u }
    ensures short { (script : Script) (t : Process) (path : List Action) (u : Process)
        → Run script t path u → IsPackable t → IsPackable u }
    ensures spellable { (script : Script) (t : Process) (path : List Action) (u : Process) →
        IsTermOf script t → Run script t path u → IsPackable t → IsInRange u → IsSpellable u }
{}

/// A term that has a spelling of its own has short lists, and its numbers are in range.
pub fn spellable_terms_are_short_and_in_range()
    ensures short { (p : Process) → IsSpellable p → IsPackable p }
    ensures range { (p : Process) → IsSpellable p → IsInRange p }
{}

/// Two terms are equal exactly where their spellings are.
pub fn equal_terms_are_spelled_alike()
    ensures { (p q : Process) → IsSpellable p → IsSpellable q
        → (spelling p ≡ spelling q) ↔ (p ≡ q) }
{}

/// `c!1 -> STOP` with the first channel is 17 bytes, and `STOP [> SKIP` is 3. The constructor `N` with the number 0 is 5
/// bytes as a value; with a field, as a value and as it is written, it is 14 and 15.
pub fn spelling_of_a_small_term()
    ensures prefix { spelling (Prefix 0 (Given (Literal (Integer (pos 1))) ∷ []) Stop)
        ≡ 0x05 ∷ 0 ∷ 0 ∷ 0 ∷ 0 ∷ 1 ∷ 0 ∷ 0 ∷ 0 ∷ 0x20 ∷ 0x30 ∷ 0x60 ∷ 1 ∷ 0 ∷ 0 ∷ 0 ∷ 0x01 ∷ [] }
    ensures sliding { spelling (SlidingChoice Stop Skip) ≡ 0x14 ∷ 0x01 ∷ 0x02 ∷ [] }
    ensures bare { value_spelling (Constructor 0 no_values) ≡ 0x62 ∷ 0 ∷ 0 ∷ 0 ∷ 0 ∷ [] }
    ensures constructor { value_spelling (Constructor 1 (value_and (Integer (pos 2)) no_values))
        ≡ 0x65 ∷ 1 ∷ 0 ∷ 0 ∷ 0 ∷ 1 ∷ 0 ∷ 0 ∷ 0 ∷ 0x60 ∷ 2 ∷ 0 ∷ 0 ∷ 0 ∷ [] }
    ensures constructed { expression_spelling (ConstructorOf 1 (expression_and (Literal (Integer (pos 2))) no_expressions))
        ≡ 0x51 ∷ 1 ∷ 0 ∷ 0 ∷ 0 ∷ 1 ∷ 0 ∷ 0 ∷ 0 ∷ 0x30 ∷ 0x60 ∷ 2 ∷ 0 ∷ 0 ∷ 0 ∷ [] }
{}
