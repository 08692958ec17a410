//! From a tree to a script.
//!
//! Which script a tree stands for, and which trees are refused for their names and kinds, with the facts that show them
//! right. The rules are those of CSPM, as the manual of FDR has them.
#![tactic(auto)]

ghost use Rattle.std.specs.Prelude.{◌≡◌, ℕ, List, ◌++◌, map};
ghost use Rattle.theory_syntax.specs.Process.{Script};
ghost use Rattle.theory_syntax.specs.Types.{Types};
ghost use Rattle.theory_semantics.specs.Kinds.Scripts.{IsCheckedScript};
ghost use Rattle.theory_text.specs.Place.{Place};
ghost use Rattle.theory_text.specs.Token.{PlacedToken};
ghost use Rattle.theory_text.specs.Raw.{RawScript};
ghost use Rattle.theory_text.specs.Grammar.{IsScript};
ghost use Rattle.theory_text.specs.Reading.{ReadingFault, IsReadingRefusal, IsUnrefusedText};
ghost use Rattle.theory_checking.specs.Order.{StandAlong};
ghost use Rattle.theory_checking.specs.Sites.{site_place, sites};
ghost use Rattle.theory_checking.specs.Rules.{all_declared, IsRedeclared, SomeFit};
ghost use Rattle.theory_checking.specs.Fitting.{item_place, items};
ghost use Rattle.theory_checking.specs.Scripts.{IsScriptOf};
ghost use Rattle.theory_checking.specs.Faults.{KindFault, NoneRefused, UnknownName, DeclaredTwice, WrongKind, WrongCount, BadFieldSet, TooManyEvents};
ghost use Rattle.theory_checking.specs.Refusals.{IsKindRefusal, PassesNames};
ghost use Rattle.theory_checking.specs.Checked.{IsCheckedTree, IsCheckedText, IsRefusedText};
ghost use Rattle.theory_checking.specs.Laws.Refusals.{IsUnrefused, HasNoKindRefusal};
ghost use Rattle.theory_checking.specs.Laws.Sets.{MembersRise};
ghost use Rattle.theory_checking.specs.Laws.FirstSets.{FirstFieldsFit, FirstClausesFit};
ghost use Rattle.theory_checking.specs.Laws.Trees.{at, unknown_process, unknown_in_freedom, declared_parameter, channel_as_process, too_few_arguments, empty_field_set, channel_twice, growing_parameter, many_events, large_field_set, channel_of_itself, parameter_twice, unlike_channels, bare_and_unknown, mixed_nametype, one_event_too_many, outputs, outputs_script, datatype_of_itself, bare_constructor_sent, constructor_sent, constructor_sent_script};

pub mod inference;
pub mod names;

/// A tree has at most one refusal, at one place.
pub fn kind_refusal_is_one()
    ensures { (raw : RawScript) (f g : KindFault) (p q : Place) → IsKindRefusal raw f p
        → IsKindRefusal raw g q → (f ≡ g) × (p ≡ q) }
{}

/// What the three passes look at stands at the tokens of the tree, in their order.
pub fn passes_go_in_the_order_of_the_text()
    ensures declared { (ts : List PlacedToken) (raw : RawScript) → IsScript ts raw
        → StandAlong ts (map (λ n. n.place) (all_declared raw)) }
    ensures sites { (ts : List PlacedToken) (raw : RawScript) → IsScript ts raw
        → StandAlong ts (map site_place (sites raw)) }
    ensures items { (ts : List PlacedToken) (raw : RawScript) → IsScript ts raw
        → StandAlong ts (map item_place (items raw)) }
{}

/// A tree stands for at most one script.
pub fn script_is_one()
    ensures { (raw : RawScript) (s t : Script) → IsScriptOf raw s → IsScriptOf raw t → s ≡ t }
{}

/// A text stands for at most one checked script.
pub fn checked_script_is_one()
    ensures { (bytes : List ℕ) (s t : Script) → IsCheckedText bytes s → IsCheckedText bytes t
        → s ≡ t }
{}

/// A text has at most one refusal for its names and kinds, at one place.
pub fn text_refusal_is_one()
    ensures { (bytes : List ℕ) (f g : KindFault) (p q : Place) → IsRefusedText bytes f p
        → IsRefusedText bytes g q → (f ≡ g) × (p ≡ q) }
{}

/// A checked tree is not refused.
pub fn checked_is_not_refused()
    ensures { (raw : RawScript) (s : Script) (f : KindFault) (p : Place) → IsCheckedTree raw s
        → ¬ IsKindRefusal raw f p }
{}

/// A checked text is refused neither by the readers nor for its names and kinds, and no text by both.
pub fn checked_text_is_not_refused()
    ensures reading { (bytes : List ℕ) (s : Script) (f : ReadingFault) (p : Place)
        → IsCheckedText bytes s → ¬ IsReadingRefusal bytes f p }
    ensures kinds { (bytes : List ℕ) (s : Script) (f : KindFault) (p : Place)
        → IsCheckedText bytes s → ¬ IsRefusedText bytes f p }
    ensures both { (bytes : List ℕ) (f : ReadingFault) (g : KindFault) (p q : Place)
        → IsReadingRefusal bytes f p → ¬ IsRefusedText bytes g q }
{}

/// A tree without a refusal has its script, and so has one of which the first two passes refuse nothing.
pub fn unrefused_tree_has_its_script()
    ensures passes { (raw : RawScript) → IsUnrefused raw → PassesNames raw }
    ensures script { (raw : RawScript) → PassesNames raw
        → (script : Script) × IsScriptOf raw script }
{}

/// A tree without a refusal is not unchecked. That kinds fit all of it is said in this weak way, since to find them one
/// has to know the datatype of each constructor (`inference`).
pub fn unrefused_tree_is_not_unchecked()
    ensures { (raw : RawScript) → IsUnrefused raw → ¬ ((s : Script) → ¬ IsCheckedTree raw s) }
{}

/// A text without a refusal, by the readers or for its names and kinds, is not unchecked.
pub fn unrefused_text_is_not_unchecked()
    ensures { (bytes : List ℕ) → IsUnrefusedText bytes → HasNoKindRefusal bytes
        → ¬ ((s : Script) → ¬ IsCheckedText bytes s) }
{}

/// The script of a checked tree is well-kinded, by its values too.
pub fn checked_tree_has_checked_script()
    ensures { (raw : RawScript) (s : Script) → IsCheckedTree raw s → IsCheckedScript s }
{}

/// Where no name is declared twice, the members of a tree's sets rise, whether kinds fit or not.
pub fn members_of_trees_rise()
    ensures { (raw above : RawScript) → NoneRefused IsRedeclared (all_declared raw)
        → MembersRise raw above }
{}

/// Where some kinds fit the sets so far, some fit those above, those of a declaration's first fields, and those of a
/// datatype's first clauses.
pub fn kinds_fit_from_above()
    ensures above { (types : Types) (above more : RawScript) → SomeFit types (above ++ more)
        → SomeFit types above }
    ensures fields { (types : Types) (above : RawScript) → FirstFieldsFit types above }
    ensures clauses { (types : Types) (above : RawScript) → FirstClausesFit types above }
{}

/// The refusals of small trees.
pub fn refusals_of_small_trees()
    ensures unknown { IsKindRefusal unknown_process UnknownName (at 1 8) }
    ensures freedom { IsKindRefusal unknown_in_freedom UnknownName (at 1 12) }
    ensures parameter { IsKindRefusal declared_parameter DeclaredTwice (at 2 3) }
    ensures class { IsKindRefusal channel_as_process WrongKind (at 2 5) }
    ensures count { IsKindRefusal too_few_arguments WrongCount (at 2 8) }
    ensures empty { IsKindRefusal empty_field_set BadFieldSet (at 1 13) }
    ensures twice { IsKindRefusal channel_twice DeclaredTwice (at 2 9) }
    ensures large { IsKindRefusal large_field_set BadFieldSet (at 1 13) }
    ensures events { IsKindRefusal many_events TooManyEvents (at 1 9) }
    ensures kinds { IsKindRefusal growing_parameter WrongKind (at 1 1) }
    ensures not_above { IsKindRefusal channel_of_itself UnknownName (at 1 13) }
    ensures parameter_again { IsKindRefusal parameter_twice DeclaredTwice (at 1 5) }
    ensures other_sets { IsKindRefusal unlike_channels WrongKind (at 3 16) }
    ensures no_channel { IsKindRefusal bare_and_unknown WrongCount (at 2 11) }
    ensures mixed_set { IsKindRefusal mixed_nametype WrongKind (at 1 14) }
    ensures one_too_many { IsKindRefusal one_event_too_many TooManyEvents (at 3 9) }
    ensures recursive { IsKindRefusal datatype_of_itself UnknownName (at 1 20) }
    ensures bare { IsKindRefusal bare_constructor_sent WrongCount (at 3 19) }
{}

/// `channel c : {0..1}`, `P(n) = c!n -> P(n)` and `assert P(0) [T= c?x -> STOP` are checked, and this is their script.
pub fn small_tree_is_checked()
    ensures { IsCheckedTree outputs outputs_script }
{}

/// So are `datatype D = N | B.{0..1}`, `channel d : D` and `P = d!(B.1) -> STOP`: the channel has three events.
pub fn small_tree_with_clauses_is_checked()
    ensures { IsCheckedTree constructor_sent constructor_sent_script }
{}
