//! How kinds that fit are found, or it is seen that none fit: two kinds are made one, and equations say what a term asks
//! for.

ghost use Rattle.std.specs.Prelude.{◌≡◌, ◌≢◌, ℕ, ◌<◌, List, [], ◌∷◌, ◌++◌, length, Option, Some, None};
ghost use Rattle.theory_syntax.specs.Process.{Script};
ghost use Rattle.theory_syntax.specs.Types.{Types};
ghost use Rattle.theory_semantics.specs.Kinds.Kind.{Kinds};
ghost use Rattle.theory_text.specs.Raw.{RawDeclaration, RawScript};
ghost use Rattle.theory_checking.specs.Sets.{types_of};
ghost use Rattle.theory_checking.specs.Rules.{SomeFit};
ghost use Rattle.theory_checking.specs.Faults.{KindFault, WrongKind};
ghost use Rattle.theory_checking.specs.Fitting.{Item};
ghost use Rattle.theory_checking.specs.Inference.Chain.{Chain, IntEnd, BoolEnd, DatatypeEnd, OpenEnd, SequenceOver, SetOver, Assignment, kind_of, open_end};
ghost use Rattle.theory_checking.specs.Inference.State.{State, nothing_known, state_of, Satisfies, IsOpenIn, IsResolved, resolve, bound_to, KindEquation, IsSolved, HasNoSolution, IsUnified, CannotBeOne, unify_resolved, unify, solve};
ghost use Rattle.theory_checking.specs.Inference.Equations.{Numbering, AreOwners};
ghost use Rattle.theory_checking.specs.Inference.Items.{AreNumbersFor, rows_from, owners_from, numbers_of, next_number};
ghost use Rattle.theory_checking.specs.Inference.Sets.{IsBeginningOf};
ghost use Rattle.theory_checking.specs.Laws.Searches.{CanBeBound, with_bound, AreSameStates, found_of, sequence_twice, sequence_of_itself, sequences_compared, mixed_sequence};
ghost use Rattle.theory_checking.specs.Laws.Asking.{ValuesAskForKinds, ExpressionsAskForKinds, ItemsAskForKinds, TurnsAskForKinds, FirstTurnsAskForKinds, FieldsAskForKinds, EventsAskForKinds, EventSetsAskForKinds, PairsAskForKinds, ProcessesAskForKinds, SetsAskForKinds, DeclarationsAskForKinds};
ghost use Rattle.theory_checking.specs.Laws.FittingKinds.{TreeAsksForSets, AreForSets, AreSolvable, AreUnsolvable, NumberedTree, AskForFit, Fit, IsSolvedFor, IsUnsolvedFor, AreKindsOf, IsMisfitOf, EquationsGoOn, AreOwnersIn, SetsAreDecided, ItemsAreDecided};
ghost use Rattle.theory_checking.specs.Laws.FirstSets.{AskForFirstSets, AreForFirstSets, AreForABeginning, FirstSetsAreAllSets, FirstFieldsAreABeginning, FirstClausesAreABeginning, NametypesAskForTheirSet, ClausesAskForNothing, ClauseFieldsAskForTheirSet, FieldsAskForTheirSet, HeadsAskForNothing, OthersAskForNothing, FirstSetsGoOn};

/// Some assignment satisfies each resolved state, whichever kinds the numbers have that are not bound. Where nothing is
/// known, each does.
pub fn resolved_states_are_satisfied()
    ensures some { (s : State) → IsResolved s → (a : Assignment) × Satisfies a s }
    ensures chosen { (s : State) (a : Assignment) → IsResolved s
        → (b : Assignment) × Satisfies b s × ((n : ℕ) → s n ≡ None → b n ≡ a n) }
    ensures start { IsResolved nothing_known }
    ensures all { (a : Assignment) → Satisfies a nothing_known }
{}

/// One look-up resolves a chain, and leaves it its kind.
pub fn one_look_up_resolves()
    ensures open { (s : State) (c : Chain) → IsResolved s → IsOpenIn s (resolve s c) }
    ensures kind { (s : State) (a : Assignment) (c : Chain) → Satisfies a s
        → kind_of a (resolve s c) ≡ kind_of a c }
    ensures one { (s t : State) (c d : Chain) → IsUnified s (resolve s c) (resolve s d) t
        → IsUnified s c d t }
    ensures none { (s : State) (c d : Chain) → CannotBeOne s (resolve s c) (resolve s d)
        → CannotBeOne s c d }
{}

/// Two kinds are made one: what they begin with alike is taken off, equal ends are one, and an open end is bound to a
/// resolved chain that does not end in it.
pub fn kinds_are_made_one()
    ensures sequences { (s t : State) (c d : Chain) → IsUnified s c d t
        → IsUnified s (SequenceOver c) (SequenceOver d) t }
    ensures sets { (s t : State) (c d : Chain) → IsUnified s c d t
        → IsUnified s (SetOver c) (SetOver d) t }
    ensures turned { (s t : State) (c d : Chain) → IsUnified s c d t → IsUnified s d c t }
    ensures equal { (s : State) (c : Chain) → IsResolved s → IsUnified s c c s }
    ensures bound { (s : State) (n : ℕ) (c : Chain) → IsResolved s → CanBeBound s n c
        → IsUnified s (OpenEnd n) c (bound_to s n c) }
{}

/// Kinds that cannot be one: below like beginnings, in a longer chain that ends in the open end itself, and with unlike
/// beginnings or known ends.
pub fn kinds_cannot_be_one()
    ensures sequences { (s : State) (c d : Chain) → CannotBeOne s c d
        → CannotBeOne s (SequenceOver c) (SequenceOver d) }
    ensures sets { (s : State) (c d : Chain) → CannotBeOne s c d
        → CannotBeOne s (SetOver c) (SetOver d) }
    ensures turned { (s : State) (c d : Chain) → CannotBeOne s c d → CannotBeOne s d c }
    ensures longer_sequence { (s : State) (n : ℕ) (c : Chain) → open_end c ≡ Some n
        → CannotBeOne s (OpenEnd n) (SequenceOver c) }
    ensures longer_set { (s : State) (n : ℕ) (c : Chain) → open_end c ≡ Some n
        → CannotBeOne s (OpenEnd n) (SetOver c) }
    ensures sequence_and_set { (s : State) (c d : Chain) → CannotBeOne s (SequenceOver c)
        (SetOver d) }
    ensures int_and_truth { (s : State) → CannotBeOne s IntEnd BoolEnd }
    ensures int_and_datatype { (s : State) (d : ℕ) → CannotBeOne s IntEnd (DatatypeEnd d) }
    ensures truth_and_datatype { (s : State) (d : ℕ) → CannotBeOne s BoolEnd (DatatypeEnd d) }
    ensures datatypes { (s : State) (c d : ℕ) → c ≢ d → CannotBeOne s (DatatypeEnd c)
        (DatatypeEnd d) }
    ensures unlike { (s : State) (c d : Chain) → IsResolved s → IsOpenIn s c → IsOpenIn s d
        → unify_resolved s c d ≡ None → CannotBeOne s c d }
{}

/// Whether two kinds can be one, and whether equations have a solution, is decided.
pub fn search_for_kinds_is_right()
    ensures one { (s t : State) (c d : Chain) → IsResolved s → unify s c d ≡ Some t
        → IsUnified s c d t }
    ensures none { (s : State) (c d : Chain) → IsResolved s → unify s c d ≡ None
        → CannotBeOne s c d }
    ensures solved { (s t : State) (es : List KindEquation) → IsResolved s → solve s es ≡ Some t
        → IsSolved s es t }
    ensures unsolved { (s : State) (es : List KindEquation) → IsResolved s → solve s es ≡ None
        → HasNoSolution s es }
{}

/// Small searches: 0 is a sequence of 1 and a sequence of numbers; 0 is a sequence of itself; `<1> == <>`; `<1,true>`.
pub fn small_searches_for_kinds()
    ensures found { found_of 1 sequence_twice ≡ Some (Some IntEnd) }
    ensures endless { solve nothing_known sequence_of_itself ≡ None }
    ensures compared { found_of 0 sequences_compared ≡ Some (Some (SequenceOver IntEnd)) }
    ensures mixed { solve nothing_known mixed_sequence ≡ None }
{}

/// Equations are solved in turn.
pub fn equations_are_solved_in_turn()
    ensures nothing { (s : State) → IsResolved s → IsSolved s [] s }
    ensures both { (s t u : State) (es fs : List KindEquation) → IsSolved s es t → IsSolved t fs u
        → IsSolved s (es ++ fs) u }
    ensures second { (s t : State) (es fs : List KindEquation) → IsSolved s es t
        → HasNoSolution t fs → HasNoSolution s (es ++ fs) }
    ensures first { (s : State) (es fs : List KindEquation) → HasNoSolution s es
        → HasNoSolution s (es ++ fs) }
{}

/// A list of chains as a state: a new number at its end is not bound, and to bind a number is to go over the list once.
/// Only what a state says of each number counts.
pub fn lists_of_chains_are_states()
    ensures longer { (cs : List (Option Chain)) (n : ℕ)
        → state_of (cs ++ None ∷ []) n ≡ state_of cs n }
    ensures bound { (cs : List (Option Chain)) (n m : ℕ) (c : Chain) →
        n < length cs → state_of (with_bound cs n c) m ≡ bound_to (state_of cs) n c m }
    ensures after { (s t u : State) (es : List KindEquation) → AreSameStates t u → IsSolved s es t
        → IsSolved s es u }
    ensures before { (s t u : State) (es : List KindEquation) → AreSameStates s u → IsSolved s es t
        → IsSolved u es t }
    ensures none { (s u : State) (es : List KindEquation) → AreSameStates s u → HasNoSolution s es
        → HasNoSolution u es }
{}

/// The equations of an expression ask that it has the kind.
pub fn equations_of_expressions()
    ensures values { (types : Types) (o : Numbering) → AreOwners types o
        → ValuesAskForKinds types o }
    ensures expressions { (types : Types) (o : Numbering) → AreOwners types o
        → ExpressionsAskForKinds types o }
    ensures items { (types : Types) (o : Numbering) → AreOwners types o → ItemsAskForKinds types o }
    ensures in_turn { (types : Types) (o : Numbering) → AreOwners types o
        → TurnsAskForKinds types o }
    ensures first_in_turn { (types : Types) (o : Numbering) → AreOwners types o
        → FirstTurnsAskForKinds types o }
{}

/// The equations of fields, sets of events, renamings and processes ask that they are well-kinded.
pub fn equations_of_processes()
    ensures fields { (types : Types) (o : Numbering) → AreOwners types o
        → FieldsAskForKinds types o }
    ensures events { (types : Types) (o : Numbering) → AreOwners types o
        → EventsAskForKinds types o }
    ensures event_sets { (types : Types) (o : Numbering) → AreOwners types o
        → EventSetsAskForKinds types o }
    ensures pairs { (script : Script) (o : Numbering) → AreOwners script.types o
        → PairsAskForKinds script o }
    ensures processes { (script : Script) (o : Numbering) → AreOwners script.types o
        → ProcessesAskForKinds script o }
{}

/// The equations of sets, equations and assertions ask that kinds fit them.
pub fn equations_of_scripts()
    ensures sets { (types : Types) (raw : RawScript) (o : Numbering) → AreOwners types o
        → TreeAsksForSets types raw o }
    ensures items { (script : Script) (o : Numbering) → AreOwners script.types o
        → DeclarationsAskForKinds script o }
    ensures all { (tree : NumberedTree) (xs : List Item) → AskForFit tree xs }
{}

/// Nametypes, fields of constructors and channels and parameters of equations, numbered in a row, are numbers for the tree.
pub fn numbers_in_a_row_are_for_the_tree()
    ensures { (owners : List ℕ) (raw : RawScript)
        → AreNumbersFor raw (next_number raw) (numbers_of owners raw) }
{}

/// Constructors that are numbered in a row, datatype by datatype, have their datatypes.
pub fn constructors_in_a_row_have_their_owners()
    ensures { (types : Types) (o : Numbering) (ks : List ℕ) →
        types.datatypes ≡ rows_from 0 ks → o.owners ≡ owners_from 0 ks → AreOwners types o }
{}

/// Some kinds fit the sets where their equations are solved, and none where they have no solution.
pub fn fitting_kinds_of_sets_are_found()
    ensures some { (types : Types) (raw : RawScript) (es : List KindEquation)
        → AreForSets types raw es → AreSolvable es → SomeFit types raw }
    ensures none { (types : Types) (raw : RawScript) (es : List KindEquation)
        → AreForSets types raw es → AreUnsolvable es → ¬ SomeFit types raw }
{}

/// Kinds fit equations and assertions, with all sets, just where they are those under an assignment that satisfies the
/// state. Where the equations have no solution none fit: a misfit.
pub fn fitting_kinds_are_found()
    ensures some { (tree : NumberedTree) (xs : List Item) (t : State) → IsSolvedFor tree xs t
        → (kinds : Kinds) × Fit tree kinds xs }
    ensures fit { (tree : NumberedTree) (xs : List Item) (t : State) (kinds : Kinds) →
        IsSolvedFor tree xs t → AreKindsOf tree t kinds → Fit tree kinds xs }
    ensures satisfy { (tree : NumberedTree) (xs : List Item) (t : State) (kinds : Kinds) →
        IsSolvedFor tree xs t → Fit tree kinds xs → AreKindsOf tree t kinds }
    ensures misfit { (tree : NumberedTree) (before : List Item) (x : Item) →
        IsUnsolvedFor tree (before ++ x ∷ []) → IsMisfitOf tree before x WrongKind }
    ensures no_misfit { (tree : NumberedTree) (before : List Item) (x : Item) (t : State) (f : KindFault) →
        IsSolvedFor tree (before ++ x ∷ []) t → ¬ IsMisfitOf tree before x f }
    ensures next { (script : Script) (o : Numbering) → EquationsGoOn script o }
{}

/// It is decided whether some kinds fit.
pub fn whether_kinds_fit_is_decided()
    ensures sets { (types : Types) (raw : RawScript) (owners : List ℕ)
        → AreOwnersIn raw owners types → SetsAreDecided types raw }
    ensures items { (raw : RawScript) (script : Script) (owners : List ℕ) →
        AreOwnersIn raw owners (types_of raw) → AreOwnersIn raw owners script.types → ItemsAreDecided raw script }
{}

/// Kinds for the sets of the first declarations, with numbers for the whole tree: some fit where the equations so far are
/// solved, and none where they have no solution. Of all declarations, these are the kinds that fit all sets.
pub fn fitting_kinds_of_first_sets_are_found()
    ensures some { (types : Types) (raw so_far : RawScript) (es : List KindEquation) →
        AreForFirstSets types raw so_far es → AreSolvable es → SomeFit types so_far }
    ensures none { (types : Types) (raw so_far : RawScript) (es : List KindEquation) →
        AreForABeginning types raw so_far es → AreUnsolvable es → ¬ SomeFit types so_far }
    ensures all { (types : Types) (raw : RawScript) (o : Numbering)
        → FirstSetsAreAllSets types raw o }
{}

/// Declarations, channels with their first fields, and datatypes with their first clauses and the first fields of the last
/// of these, are the beginning of a tree that goes on with more.
pub fn first_sets_are_a_beginning()
    ensures above { (so_far more : RawScript) → IsBeginningOf (so_far ++ more) so_far }
    ensures fields { (above below : RawScript) → FirstFieldsAreABeginning above below }
    ensures clauses { (above below : RawScript) → FirstClausesAreABeginning above below }
{}

/// The equations of the sets, declaration by declaration: none before the first, those of its set with a nametype, those
/// of each field of each constructor with a datatype, those of each field of each channel with channels, and no more with
/// the others.
pub fn equations_of_first_sets()
    ensures nothing { (types : Types) (o : Numbering) (n : ℕ) → AskForFirstSets types [] o n [] n }
    ensures nametype { (types : Types) (o : Numbering) → AreOwners types o
        → NametypesAskForTheirSet types o }
    ensures clause { (types : Types) (o : Numbering) → ClausesAskForNothing types o }
    ensures clause_field { (types : Types) (o : Numbering) → AreOwners types o
        → ClauseFieldsAskForTheirSet types o }
    ensures field { (types : Types) (o : Numbering) → AreOwners types o
        → FieldsAskForTheirSet types o }
    ensures heads { (types : Types) (o : Numbering) → HeadsAskForNothing types o }
    ensures other { (types : Types) (o : Numbering) → OthersAskForNothing types o }
    ensures declaration { (types : Types) (above : RawScript) (d : RawDeclaration)
        → FirstSetsGoOn types above d }
    ensures set { (types : Types) (o : Numbering) → AreOwners types o → SetsAskForKinds types o }
{}
