//! How names are looked up: declared names have rows, bound names have numbers, and a walk over the sites stops at the
//! first that is refused.

ghost use Rattle.std.specs.Prelude.{◌≡◌, ℕ, true, false, List, [], ◌∷◌, ◌++◌, length, slice_get, Some, None};
ghost use Rattle.theory_syntax.specs.Process.{Script};
ghost use Rattle.theory_text.specs.Place.{Place};
ghost use Rattle.theory_text.specs.Raw.{RawName, RawDeclaration, RawScript};
ghost use Rattle.theory_checking.specs.Names.{ConstructorName, names_of, spellings, number_in, has_spelling, with_spellings, bound_spellings, declared_meaning, Environment};
ghost use Rattle.theory_checking.specs.Resolving.{constructor_count};
ghost use Rattle.theory_checking.specs.Sets.{datatypes_of, types_of};
ghost use Rattle.theory_checking.specs.Scripts.{IsScriptOf};
ghost use Rattle.theory_checking.specs.Sites.{Use, AsExpression, AsConstructor, AsEquation, AsEvent, AsProductions, AsBareLeft, AsBareRight, Site, Used, BoundThere, Parameter, sites};
ghost use Rattle.theory_checking.specs.Faults.{KindFault, UnknownName, DeclaredTwice, WrongKind, WrongCount, NoneRefused};
ghost use Rattle.theory_checking.specs.Rules.{all_declared, parameter_count, field_count};
ghost use Rattle.theory_checking.specs.Refusals.{IsRefusedAt, PassesNames, IsKindRefusal};
ghost use Rattle.theory_checking.specs.Walks.{IsFine, AllFine, IsStoppedAt};
ghost use Rattle.theory_checking.specs.DeclaredRows.{rows_declared, declared_rows, row_spellings, meaning_in, EachOnce};
ghost use Rattle.theory_checking.specs.ConstructorRows.{constructor_counts};
ghost use Rattle.theory_checking.specs.Inference.Equations.{Numbering, AreOwners};
ghost use Rattle.theory_checking.specs.Inference.Items.{rows_from};
ghost use Rattle.theory_checking.specs.Laws.DeclaredNames.{AreDeclaredOnce, DeclaresOnce, IsNewBehind, IsFirstRepeated, rows_above, RowsAboveAreMeant, RowsBelowMeanNothing, MeaningsHaveRowsAbove, owners_in_a_row, with_one_spelling, AreItsNamesNumbered};
ghost use Rattle.theory_checking.specs.Laws.SiteWalks.{Walk, AllFineIn, StopsAt, StopsInADeclaration};
ghost use Rattle.theory_checking.specs.Laws.UsedNames.{MeansNothing, MeansSomething, Suits, IsUnsuited, IsUndeclared, IsDeclared, IsOtherThan, IsAtLeast, IsLessThan, IsNoneOrZero, HaveEqualCounts, HaveUnlikeCounts, AreAlike, HaveUnlikeSets};

/// Each declared name has a row, in the order of the text. The rows of the declarations above are the first of all rows.
pub fn declared_names_have_rows()
    ensures spellings { (raw : RawScript) → row_spellings (declared_rows raw)
        ≡ spellings (all_declared raw) }
    ensures next { (above : RawScript) (d : RawDeclaration)
        → declared_rows (above ++ d ∷ []) ≡ declared_rows above ++ rows_declared above d }
    ensures above { (above more : RawScript) → rows_above (above ++ more) above
        ≡ declared_rows above }
{}

/// Where no name is declared twice, a spelling means what its row says, and among the declarations above it means
/// nothing where its row stands further down. One that is nowhere declared means nothing.
pub fn declared_names_mean_what_their_rows_say()
    ensures all { (raw : RawScript) (s : List ℕ) → DeclaresOnce raw
        → declared_meaning raw s ≡ meaning_in (declared_rows raw) s }
    ensures above { (raw above more : RawScript) (s : List ℕ) →
        DeclaresOnce raw → raw ≡ above ++ more → declared_meaning above s ≡ meaning_in (rows_above raw above) s }
    ensures here { (raw above more : RawScript) → DeclaresOnce raw → raw ≡ above ++ more
        → RowsAboveAreMeant raw above }
    ensures further_down { (raw above more : RawScript) → DeclaresOnce raw → raw ≡ above ++ more
        → RowsBelowMeanNothing raw above }
    ensures some { (raw above more : RawScript) → DeclaresOnce raw → raw ≡ above ++ more
        → MeaningsHaveRowsAbove raw above }
    ensures nowhere { (raw : RawScript) (s : List ℕ) → number_in (spellings (all_declared raw)) s
        ≡ None → declared_meaning raw s ≡ None }
{}

/// The first name whose spelling is declared before it is the refusal of the tree.
pub fn names_are_declared_once_or_refused()
    ensures next { (before : List RawName) (n : RawName) → AreDeclaredOnce before
        → IsNewBehind before n → AreDeclaredOnce (before ++ n ∷ []) }
    ensures refused { (raw : RawScript) (n : RawName) → IsFirstRepeated raw n
        → IsKindRefusal raw DeclaredTwice n.place }
{}

/// The constructors of a tree in which no name is declared twice are numbered in a row, datatype by datatype. So their
/// datatypes in a row are their owners.
pub fn constructors_of_trees_are_in_a_row()
    ensures rows { (raw : RawScript) → DeclaresOnce raw
        → datatypes_of raw ≡ rows_from 0 (constructor_counts raw) }
    ensures tree { (raw : RawScript) (o : Numbering) → DeclaresOnce raw
        → o.owners ≡ owners_in_a_row raw → AreOwners (types_of raw) o }
    ensures script { (raw : RawScript) (s : Script) (o : Numbering) → DeclaresOnce raw
        → IsScriptOf raw s → o.owners ≡ owners_in_a_row raw → AreOwners s.types o }
    ensures counted { (raw : RawScript) → length (owners_in_a_row raw)
        ≡ length (names_of ConstructorName raw) }
{}

/// Bound names have their numbers in the order in which they are first bound, and keep them when more are bound.
pub fn bound_names_have_numbers()
    ensures once { (raw : RawScript) → EachOnce (bound_spellings raw) }
    ensures next { (ss ts : List (List ℕ)) (t : List ℕ)
        → with_spellings ss (ts ++ t ∷ []) ≡ with_one_spelling (with_spellings ss ts) t }
    ensures kept { (ss ts : List (List ℕ)) (s : List ℕ) (k : ℕ) → number_in ss s ≡ Some k
        → number_in (with_spellings ss ts) s ≡ Some k }
    ensures all { (raw above below : RawScript) (d : RawDeclaration) → raw ≡ above ++ d ∷ below
        → AreItsNamesNumbered raw d }
    ensures place { (ss : List (List ℕ)) (i : ℕ) (s : List ℕ) → EachOnce ss
        → slice_get ss i ≡ Some s → number_in ss s ≡ Some i }
    ensures spelling { (ss : List (List ℕ)) (s : List ℕ) (i : ℕ) → number_in ss s ≡ Some i
        → slice_get ss i ≡ Some s }
{}

/// A walk over sites finds all of them fine or stops at the first that is refused. It goes on part by part, and
/// declaration by declaration. Where it stops in the sites of a tree, that is the refusal of the tree.
pub fn walks_stop_at_the_first_refused_site()
    ensures both { (xs ys : List Site) → AllFine xs → AllFine ys → AllFine (xs ++ ys) }
    ensures first { (xs ys : List Site) (f : KindFault) (p : Place) → IsStoppedAt xs f p
        → IsStoppedAt (xs ++ ys) f p }
    ensures behind { (xs ys : List Site) (f : KindFault) (p : Place) → AllFine xs
        → IsStoppedAt ys f p → IsStoppedAt (xs ++ ys) f p }
    ensures next { (g : Walk) (above : RawScript) (d : RawDeclaration) → AllFineIn g above
        → AllFine (g above d) → AllFineIn g (above ++ d ∷ []) }
    ensures stopped { (raw : RawScript) (f : KindFault) (p : Place) → StopsInADeclaration raw f p
        → IsStoppedAt (sites raw) f p }
    ensures refusal { (raw : RawScript) (f : KindFault) (p : Place) → DeclaresOnce raw
        → IsStoppedAt (sites raw) f p → IsKindRefusal raw f p }
    ensures pass { (raw : RawScript) → DeclaresOnce raw → AllFine (sites raw) → PassesNames raw }
    ensures fine { (xs : List Site) → AllFine xs → NoneRefused IsRefusedAt xs }
    ensures not_both { (xs : List Site) (f : KindFault) (p : Place) → IsStoppedAt xs f p
        → ¬ AllFine xs }
{}

/// A name in use is refused where it means nothing, where what it means does not suit, and where the number of arguments
/// or fields is another one, and is else fine. A constructor with fields cannot stand alone.
pub fn names_in_use_are_fine_or_refused()
    ensures unknown { (env : Environment) (u : Use) (n : RawName) → MeansNothing env n
        → StopsAt (Used env u n) UnknownName }
    ensures class { (env : Environment) (u : Use) (n : RawName) → IsUnsuited env u n
        → StopsAt (Used env u n) WrongKind }
    ensures expression { (env : Environment) (n : RawName) →
        Suits env AsExpression n → IsNoneOrZero (constructor_count env n) → IsFine (Used env AsExpression n) }
    ensures bare { (env : Environment) (n : RawName) →
        Suits env AsExpression n → IsOtherThan 0 (constructor_count env n) → StopsAt (Used env AsExpression n) WrongCount }
    ensures constructor { (env : Environment) (k : ℕ) (n : RawName) →
        Suits env (AsConstructor k) n → constructor_count env n ≡ Some k → IsFine (Used env (AsConstructor k) n) }
    ensures constructor_fields { (env : Environment) (k : ℕ) (n : RawName) →
        Suits env (AsConstructor k) n → IsOtherThan k (constructor_count env n) → StopsAt (Used env (AsConstructor k) n) WrongCount }
    ensures equation { (env : Environment) (k : ℕ) (n : RawName) →
        Suits env (AsEquation k) n → parameter_count env n ≡ Some k → IsFine (Used env (AsEquation k) n) }
    ensures arguments { (env : Environment) (k : ℕ) (n : RawName) →
        Suits env (AsEquation k) n → IsOtherThan k (parameter_count env n) → StopsAt (Used env (AsEquation k) n) WrongCount }
    ensures event { (env : Environment) (k : ℕ) (n : RawName) →
        Suits env (AsEvent k) n → field_count env n ≡ Some k → IsFine (Used env (AsEvent k) n) }
    ensures fields { (env : Environment) (k : ℕ) (n : RawName) →
        Suits env (AsEvent k) n → IsOtherThan k (field_count env n) → StopsAt (Used env (AsEvent k) n) WrongCount }
    ensures productions { (env : Environment) (k : ℕ) (n : RawName) →
        Suits env (AsProductions k) n → IsAtLeast k (field_count env n) → IsFine (Used env (AsProductions k) n) }
    ensures too_many { (env : Environment) (k : ℕ) (n : RawName) →
        Suits env (AsProductions k) n → IsLessThan k (field_count env n) → StopsAt (Used env (AsProductions k) n) WrongCount }
{}

/// The channels of a renaming of two bare ones have equal numbers of fields, and where their field sets are known, equal
/// ones, or are refused.
pub fn bare_channels_are_fine_or_refused()
    ensures left { (env : Environment) (n right : RawName) →
        Suits env (AsBareLeft right) n → HaveEqualCounts env n right → IsFine (Used env (AsBareLeft right) n) }
    ensures left_without_fields { (env : Environment) (n right : RawName) →
        Suits env (AsBareLeft right) n → field_count env n ≡ Some 0 → IsFine (Used env (AsBareLeft right) n) }
    ensures left_count { (env : Environment) (n right : RawName) →
        Suits env (AsBareLeft right) n → HaveUnlikeCounts env n right → StopsAt (Used env (AsBareLeft right) n) WrongCount }
    ensures right { (env : Environment) (n left : RawName) →
        Suits env (AsBareRight left) n → AreAlike env left n → IsFine (Used env (AsBareRight left) n) }
    ensures right_without_fields { (env : Environment) (n left : RawName) →
        Suits env (AsBareRight left) n → field_count env n ≡ Some 0 → IsFine (Used env (AsBareRight left) n) }
    ensures right_count { (env : Environment) (n left : RawName) →
        Suits env (AsBareRight left) n → HaveUnlikeCounts env n left → StopsAt (Used env (AsBareRight left) n) WrongCount }
    ensures right_sets { (env : Environment) (n left : RawName) →
        MeansSomething env n → HaveUnlikeSets env left n → StopsAt (Used env (AsBareRight left) n) WrongKind }
{}

/// A bound name is refused where it is a declared one, and a parameter also where it is named twice in one head.
pub fn bound_names_are_fine_or_refused()
    ensures bound { (env : Environment) (n : RawName) → IsUndeclared env n
        → IsFine (BoundThere env n) }
    ensures declared { (env : Environment) (n : RawName) → IsDeclared env n
        → StopsAt (BoundThere env n) DeclaredTwice }
    ensures parameter { (env : Environment) (n : RawName) →
        IsUndeclared env n → has_spelling env.bound n.spelling ≡ false → IsFine (Parameter env n) }
    ensures declared_parameter { (env : Environment) (n : RawName) → IsDeclared env n
        → StopsAt (Parameter env n) DeclaredTwice }
    ensures parameter_again { (env : Environment) (n : RawName) →
        has_spelling env.bound n.spelling ≡ true → StopsAt (Parameter env n) DeclaredTwice }
{}
