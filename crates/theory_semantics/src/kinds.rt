//! Terms of a well-kinded script meet no operand of a wrong kind, no name without a value and no number of parts that
//! does not fit.

ghost use Rattle.std.specs.Prelude.{◌≡◌, ◌≢◌, true, List, [], ◌∷◌, Contains, Some, Err};
ghost use Rattle.theory_syntax.specs.Value.{Value, Action, Truth, Constructor, no_values};
ghost use Rattle.theory_syntax.specs.Expression.{Unary, Binary, Literal, SequenceOf, Datatype, ConstructorOf, no_expressions, expression_and};
ghost use Rattle.theory_syntax.specs.Process.{Assertion, Enumeration, Productions, Process, Stop, Unfolding, Script};
ghost use Rattle.theory_syntax.specs.Readings.{reading};
ghost use Rattle.theory_syntax.specs.Types.{Types};
ghost use Rattle.theory_semantics.specs.Meaning.Evaluation.{IllKinded, range_of};
ghost use Rattle.theory_semantics.specs.Meaning.Substitution.{Bindings, put};
ghost use Rattle.theory_semantics.specs.Meaning.Faults.{cause_in};
ghost use Rattle.theory_semantics.specs.Meaning.Transitions.{RuleStep};
ghost use Rattle.theory_semantics.specs.Meaning.Runs.{Run};
ghost use Rattle.theory_semantics.specs.Kinds.Kind.{Kind, IntKind, BoolKind, DatatypeKind, SequenceKind, SetKind, Kinds};
ghost use Rattle.theory_semantics.specs.Kinds.Values.{IsValueOf};
ghost use Rattle.theory_semantics.specs.Kinds.Expressions.{UnaryKinds, BinaryKinds, HasKind};
ghost use Rattle.theory_semantics.specs.Kinds.Events.{IsEventSet, IsPair};
ghost use Rattle.theory_semantics.specs.Kinds.Processes.{IsWellKinded, IsClosedTerm};
ghost use Rattle.theory_semantics.specs.Kinds.Scripts.{IsCheckedScript, IsTermOf, HaveFieldSets, TypesHaveKinds, TypesHaveFirstKinds, SetsHaveKinds, IsWellKindedScript};
ghost use Rattle.theory_semantics.specs.Laws.Terms.{no_types, digits, one_and_true, letter_expression, renamed, send, send_x, receive, beginning_on_d, some_bit, bit, the_bit, bit_script};
ghost use Rattle.theory_semantics.specs.Laws.Kinds.{kinds_of_digits, kinds_of_bits, one_and_two, two_and_one};
ghost use Rattle.theory_semantics.specs.Laws.Values.{ValuesHaveTheirKinds, ValuesAreNoMisfits, AllValuesHaveTheirKind, AllValuesAreNoMisfits, ElementsHaveTheirKind};
ghost use Rattle.theory_semantics.specs.Laws.Values.{UnaryGives, BinaryGives, UnaryFits, BinaryFits, GivenHaveTheirKinds, GivenAreNoMisfits, HasAllTypes, NextNametypeFits, NextConstructorFits, ValuesKeepKinds, MembersKeepKinds, ExpressionsKeepKinds};
ghost use Rattle.theory_semantics.specs.Laws.Putting.{ExpressionsStayKinded, FieldsStayKinded, EventSetsStayKinded, PairsStayKinded, ProcessesStayKinded, OneValueCloses};
ghost use Rattle.theory_semantics.specs.Laws.Misfits.{ConditionsAreNoMisfits, ElementsAreNoMisfits, FieldsAreNoMisfits, OpenFieldsAreNoMisfits, EventsAreNoMisfits};
ghost use Rattle.theory_semantics.specs.Laws.Misfits.{BeginningsAreNoMisfits, EventSetsAreNoMisfits, RenamingsAreNoMisfits, ArgumentsAreNoMisfits, CallsAreNoMisfits};
ghost use Rattle.theory_semantics.specs.Laws.ClosedTerms.{FaultsAreNoMisfits, BodiesAreClosed, InstancesAreClosed, PrefixesLeadToClosed, SidesAreTerms};
ghost use Rattle.theory_semantics.specs.Laws.ClosedTerms.{ClosedTermsAreNoMisfits, SettledTermsAreClosed, StepsKeepTermsClosed, RunsKeepTermsClosed, ClosedTermsHaveTheirSteps};

/// `<>` is of every kind of sequences and `<1,true>` of none; 1 and 2 are the members of a set in this order alone. With
/// `c` of `{0..1}`, `c?x -> c!x -> STOP` is a closed term, and `c!true -> STOP` and `c!x -> STOP` are not.
pub fn kinds_of_small_terms()
    ensures empty { (k : Kind) → HasKind no_types kinds_of_digits [] (SequenceOf no_expressions)
        (SequenceKind k) }
    ensures mixed { (k : Kind) → ¬ HasKind no_types kinds_of_digits [] one_and_true k }
    ensures rising { IsValueOf no_types kinds_of_digits one_and_two (SetKind IntKind) }
    ensures falling { (k : Kind) → ¬ IsValueOf no_types kinds_of_digits two_and_one k }
    ensures script { IsWellKindedScript digits kinds_of_digits }
    ensures bound { IsClosedTerm digits kinds_of_digits (receive send_x) }
    ensures wrong { ¬ IsClosedTerm digits kinds_of_digits (send (Literal (Truth true)) Stop) }
    ensures hides { IsWellKinded digits kinds_of_digits ((7, BoolKind) ∷ []) (receive send_x) }
    ensures not_hidden { ¬ IsWellKinded digits kinds_of_digits ((7, BoolKind) ∷ []) send_x }
    ensures free { ¬ IsClosedTerm digits kinds_of_digits send_x }
{}

/// With `datatype D = N | B.{0..1}`: `(B.1)` is of the kind of `D`, as its value is, and `(B.true)` and `B` are of none.
pub fn kinds_of_constructors()
    ensures given { HasKind some_bit kinds_of_bits [] (the_bit 1) (DatatypeKind 0) }
    ensures value { IsValueOf some_bit kinds_of_bits (bit 1) (DatatypeKind 0) }
    ensures all { HasKind some_bit kinds_of_bits [] (Datatype 0) (SetKind (DatatypeKind 0)) }
    ensures script { IsWellKindedScript bit_script kinds_of_bits }
    ensures truth { (k : Kind) → ¬ HasKind some_bit kinds_of_bits []
        (ConstructorOf 1 (expression_and (Literal (Truth true)) no_expressions)) k }
    ensures bare { (k : Kind) → ¬ HasKind some_bit kinds_of_bits []
        (Literal (Constructor 1 no_values)) k }
{}

/// With `c` of `{0..1}` and `d` of `{0..1}.{0..1}`: `{| c, d.0 |}` and `[[c <- c]]` are well-kinded, `{c}` and
/// `[[c <- d]]` are not.
pub fn kinds_of_small_events()
    ensures productions { IsEventSet no_types kinds_of_digits []
        (Productions (letter_expression 0 ∷ beginning_on_d 0 ∷ [])) }
    ensures too_few { ¬ IsEventSet no_types kinds_of_digits []
        (Enumeration (letter_expression 0 ∷ [])) }
    ensures bare { IsPair digits kinds_of_digits [] (renamed 0 0) }
    ensures other_sets { ¬ IsPair digits kinds_of_digits [] (renamed 0 1) }
{}

/// A value of an expression without free names has the kinds of the expression, and if there is none, the cause is no
/// misfit of kinds.
pub fn values_have_their_kinds()
    ensures value { (types : Types) (kinds : Kinds) → TypesHaveKinds types kinds
        → ValuesHaveTheirKinds types kinds }
    ensures no_misfit { (types : Types) (kinds : Kinds) → TypesHaveKinds types kinds
        → ValuesAreNoMisfits types kinds }
    ensures values { (types : Types) (kinds : Kinds) → TypesHaveKinds types kinds
        → AllValuesHaveTheirKind types kinds }
    ensures no_misfits { (types : Types) (kinds : Kinds) → TypesHaveKinds types kinds
        → AllValuesAreNoMisfits types kinds }
    ensures given { (types : Types) (kinds : Kinds) → TypesHaveKinds types kinds
        → GivenHaveTheirKinds types kinds }
    ensures given_no_misfits { (types : Types) (kinds : Kinds) → TypesHaveKinds types kinds
        → GivenAreNoMisfits types kinds }
{}

/// Operators give values of their kind to operands of theirs, or a cause that is no misfit.
pub fn operators_have_their_kinds()
    ensures unary { (types : Types) (kinds : Kinds) (op : Unary) (m k : Kind) → UnaryKinds op m k
        → UnaryGives types kinds op m k }
    ensures unary_no_misfit { (types : Types) (kinds : Kinds) (op : Unary) (m k : Kind)
        → UnaryKinds op m k → UnaryFits types kinds op m }
    ensures binary { (types : Types) (kinds : Kinds) (op : Binary) (m n k : Kind)
        → BinaryKinds op m n k → BinaryGives types kinds op m n k }
    ensures binary_no_misfit { (types : Types) (kinds : Kinds) (op : Binary) (m n k : Kind)
        → BinaryKinds op m n k → BinaryFits types kinds op m n }
    ensures ranges { (types : Types) (kinds : Kinds) (v w : Value) → IsValueOf types kinds v IntKind
        → IsValueOf types kinds w IntKind → range_of v w ≢ Err IllKinded }
{}

/// Sets that are evaluated one after the other: a value over the first nametypes and constructors has the kinds of its
/// expression, and a set of the kind of the next nametype, or sets of those of the next constructor, can follow them.
pub fn first_sets_have_their_kinds()
    ensures value { (types : Types) (kinds : Kinds) → TypesHaveFirstKinds types kinds
        → ValuesHaveTheirKinds types kinds }
    ensures members { (types : Types) (kinds : Kinds) → TypesHaveFirstKinds types kinds
        → ElementsHaveTheirKind types kinds }
    ensures next { (types : Types) (kinds : Kinds) → TypesHaveFirstKinds types kinds
        → NextNametypeFits types kinds }
    ensures next_fields { (types : Types) (kinds : Kinds) → TypesHaveFirstKinds types kinds
        → NextConstructorFits types kinds }
    ensures given { (types : Types) (kinds : Kinds) → TypesHaveFirstKinds types kinds
        → GivenHaveTheirKinds types kinds }
    ensures all { (types : Types) (kinds : Kinds) →
        TypesHaveFirstKinds types kinds → HasAllTypes types kinds → HaveFieldSets types → TypesHaveKinds types kinds }
{}

/// Of the types, kinds hang on the datatypes alone.
pub fn kinds_hang_on_datatypes()
    ensures values { (types others : Types) → types.datatypes ≡ others.datatypes
        → ValuesKeepKinds types others }
    ensures members { (types others : Types) → types.datatypes ≡ others.datatypes
        → MembersKeepKinds types others }
    ensures expressions { (types others : Types) → types.datatypes ≡ others.datatypes
        → ExpressionsKeepKinds types others }
{}

/// Values of the right kinds, put in for names, leave what they are put in well-kinded, where the names that have no
/// value may still be used.
pub fn putting_in_keeps_kinds()
    ensures expressions { (types : Types) (kinds : Kinds) → ExpressionsStayKinded types kinds }
    ensures fields { (types : Types) (kinds : Kinds) → FieldsStayKinded types kinds }
    ensures event_sets { (types : Types) (kinds : Kinds) → EventSetsStayKinded types kinds }
    ensures pairs { (script : Script) (kinds : Kinds) → PairsStayKinded script kinds }
    ensures processes { (script : Script) (kinds : Kinds) → ProcessesStayKinded script kinds }
    ensures one_value { (script : Script) (kinds : Kinds) → OneValueCloses script kinds }
{}

/// The parts of a closed term that its rules evaluate are no misfits.
pub fn parts_are_no_misfits()
    ensures conditions { (script : Script) (kinds : Kinds) → SetsHaveKinds script kinds
        → ConditionsAreNoMisfits script kinds }
    ensures elements { (script : Script) (kinds : Kinds) → SetsHaveKinds script kinds
        → ElementsAreNoMisfits script kinds }
    ensures fields { (script : Script) (kinds : Kinds) → SetsHaveKinds script kinds
        → FieldsAreNoMisfits script kinds }
    ensures open_fields { (script : Script) (kinds : Kinds) → SetsHaveKinds script kinds
        → OpenFieldsAreNoMisfits script kinds }
    ensures events { (script : Script) (kinds : Kinds) → SetsHaveKinds script kinds
        → EventsAreNoMisfits script kinds }
    ensures beginnings { (script : Script) (kinds : Kinds) → SetsHaveKinds script kinds
        → BeginningsAreNoMisfits script kinds }
    ensures event_sets { (script : Script) (kinds : Kinds) → SetsHaveKinds script kinds
        → EventSetsAreNoMisfits script kinds }
    ensures renamings { (script : Script) (kinds : Kinds) → SetsHaveKinds script kinds
        → RenamingsAreNoMisfits script kinds }
    ensures arguments { (script : Script) (kinds : Kinds) → SetsHaveKinds script kinds
        → ArgumentsAreNoMisfits script kinds }
    ensures calls { (script : Script) (kinds : Kinds) → IsWellKindedScript script kinds
        → CallsAreNoMisfits script kinds }
{}

/// The body of a call, the instances of a replicated form, and the body of a prefix with the values of its inputs are
/// closed terms.
pub fn parts_lead_to_closed_terms()
    ensures bodies { (script : Script) (kinds : Kinds) → IsWellKindedScript script kinds
        → BodiesAreClosed script kinds }
    ensures instances { (script : Script) (kinds : Kinds) → SetsHaveKinds script kinds
        → InstancesAreClosed script kinds }
    ensures prefixes { (script : Script) (kinds : Kinds) → SetsHaveKinds script kinds
        → PrefixesLeadToClosed script kinds }
{}

/// A closed term has no free name: values that are put in do not change it.
pub fn closed_terms_have_no_free_names()
    ensures { (script : Script) (kinds : Kinds) (bs : Bindings) (t : Process)
        → IsClosedTerm script kinds t → put bs t ≡ t }
{}

/// A rule for a closed term of a well-kinded script meets no misfit.
pub fn closed_terms_are_no_misfits()
    ensures { (script : Script) (kinds : Kinds) → IsWellKindedScript script kinds
        → ClosedTermsAreNoMisfits script kinds }
{}

/// A closed term of a well-kinded script is closed when its names are unfolded, and its steps and runs lead to closed terms.
pub fn steps_keep_terms_closed()
    ensures settled { (script : Script) (kinds : Kinds) → IsWellKindedScript script kinds
        → SettledTermsAreClosed script kinds }
    ensures step { (script : Script) (kinds : Kinds) → IsWellKindedScript script kinds
        → StepsKeepTermsClosed script kinds }
    ensures run { (script : Script) (kinds : Kinds) → IsWellKindedScript script kinds
        → RunsKeepTermsClosed script kinds }
{}

/// Each closed term of a well-kinded script has all the steps of its rules, or is faulty by a cause that is no misfit,
/// or is large.
pub fn closed_terms_have_their_steps()
    ensures { (script : Script) (kinds : Kinds) → IsWellKindedScript script kinds
        → ClosedTermsHaveTheirSteps script kinds }
{}

/// A script is checked, and has its terms, however its names are read.
pub fn kinds_hang_on_no_reading()
    ensures scripts { (u : Unfolding) (script : Script) → IsCheckedScript script
        → IsCheckedScript (reading u script) }
    ensures terms { (u : Unfolding) (script : Script) (t : Process) → IsTermOf script t
        → IsTermOf (reading u script) t }
{}

/// Both sides of an assertion of a checked script are terms of it, and steps and runs lead from its terms to others.
/// None is a misfit.
pub fn terms_of_checked_scripts()
    ensures sides { (script : Script) (a : Assertion) → IsCheckedScript script
        → Contains script.assertions a → SidesAreTerms script a }
    ensures step { (script : Script) (t : Process) (x : Action) (u : Process) → IsTermOf script t
        → RuleStep script t x u → IsTermOf script u }
    ensures run { (script : Script) (t : Process) (path : List Action) (u : Process)
        → IsTermOf script t → Run script t path u → IsTermOf script u }
    ensures no_misfit { (script : Script) (t : Process) → IsTermOf script t
        → cause_in script t ≢ Some IllKinded }
    ensures faults { (script : Script) (t : Process) → IsTermOf script t
        → FaultsAreNoMisfits script t }
{}
