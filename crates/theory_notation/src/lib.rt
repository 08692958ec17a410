//! Values, expressions, sets of events and processes as text of the language.
//!
//! A text has the brackets that the grammar needs and no others: each form has a rank or a shape, and stands in brackets
//! where that is too weak for its place. Operators stand between spaces, and a `-` keeps a space from what would be read
//! with it. The names are those of a tree, by their numbers. Where types are given, what gives a value is told by it: a field,
//! an argument or a condition that is closed and is no set. Omega, which no script can write, has a word that is none of
//! the language.
#![tactic(auto)]

ghost use Rattle.std.specs.Prelude.{◌≡◌, ◌∷◌, [], codes, negsuc, true, None, Ok};
ghost use Rattle.theory_syntax.specs.Value.{Constructor, Integer, Sequence, Set, Values, no_values, value_and};
ghost use Rattle.theory_syntax.specs.Types.{Types};
ghost use Rattle.theory_syntax.specs.Expression.{Add, And, Apply, Combine, ConstructorOf, Equals, Expression, IsMember, LessThan, Literal, Modulus, Multiply, Negate, Not, Or, Range, SequenceOf, SetOf, Subtract, no_expressions};
ghost use Rattle.theory_syntax.specs.Process.{Call, Enumeration, ExternalChoice, GeneralisedParallel, Given, Guard, Hiding, If, Input, InputFrom, InternalChoice, Omega, Prefix, Productions, ReplicatedExternalChoice, Renaming, Sequential, SlidingChoice, Stop};
ghost use Rattle.theory_semantics.specs.Meaning.Evaluation.{value};
ghost use Rattle.theory_notation.specs.Names.{Names, with_types};
ghost use Rattle.theory_notation.specs.Told.{told};
ghost use Rattle.theory_notation.specs.Values.{value_text};
ghost use Rattle.theory_notation.specs.Expressions.{expression_text};
ghost use Rattle.theory_notation.specs.Processes.{process_text};
ghost use Rattle.theory_notation.specs.Samples.{minus_one, names, number, on_c, one, p, telling, two, x};

/// Values: a space keeps a `-` from `<` and `{`, and the least number is written as a difference.
pub fn texts_of_values()
    ensures sequence { value_text names (Sequence
        (value_and minus_one (value_and minus_one no_values))) ≡ codes "< -1,-1>" }
    ensures set { value_text names (Set (value_and (Integer (negsuc 2147483647)) no_values))
        ≡ codes "{(-2147483647 - 1)}" }
    ensures constructor { value_text names (Constructor 1
        (value_and minus_one (value_and (Constructor 0 no_values) no_values))) ≡ codes "(B.-1.N)" }
{}

/// Expressions: chains group to the left, and an operand that is too weak stands in brackets.
pub fn texts_of_expressions()
    ensures left { expression_text names (Combine Subtract (Combine Add x (number 1)) x)
        ≡ codes "x + 1 - x" }
    ensures right { expression_text names (Combine Subtract x (Combine Add (number 1) x))
        ≡ codes "x - (1 + x)" }
    ensures minus { expression_text names (Combine Subtract x (Apply Negate (Apply Negate x)))
        ≡ codes "x - - -x" }
    ensures ranks { expression_text names (Combine Multiply (Combine Add x x) (number 2))
        ≡ codes "(x + x) * 2" }
    ensures comparison { expression_text names
        (Combine Equals (Combine LessThan x x) (Combine Or x x)) ≡ codes "(x < x) == (x or x)" }
    ensures connectives { expression_text names
        (Combine And (Combine Or x x) (Apply Not (Combine Equals x x)))
        ≡ codes "(x or x) and not x == x" }
    ensures items { expression_text names (SequenceOf (two (Apply Negate x) (Combine LessThan x x)))
        ≡ codes "< -x,(x < x)>" }
    ensures members { expression_text names (SetOf (two (Combine LessThan (Apply Negate x) x) x))
        ≡ codes "{ -x < x,x}" }
    ensures range { expression_text names (Range (Literal minus_one) (Literal minus_one))
        ≡ codes "{ -1..-1}" }
    ensures function { expression_text names (Combine IsMember (Combine Or x x) x)
        ≡ codes "member(x or x,x)" }
    ensures constructor { expression_text names (ConstructorOf 1 (two (Combine Add x x) x))
        ≡ codes "(B.(x + x).x)" }
{}

/// Processes: prefix and guard hold most strongly, a chain of one operator goes on to the left, and `\` and `[[` stand
/// behind a base.
pub fn texts_of_processes()
    ensures prefix { process_text names (ExternalChoice (on_c (Given (Combine Subtract x x)) p)
        (on_c (Input 0) (ExternalChoice p p))) ≡ codes "c.(x - x) -> P [] c?x -> (P [] P)" }
    ensures chain { process_text names (Sequential (Sequential p p) (Sequential p p))
        ≡ codes "P ; P ; (P ; P)" }
    ensures mixed { process_text names (InternalChoice (ExternalChoice p p) (If x p p))
        ≡ codes "(P [] P) |~| (if x then P else P)" }
    ensures hiding { process_text names (Hiding (on_c (Given x) p)
        (Productions (record { channel = 0; fields = no_expressions } ∷ [])))
        ≡ codes "(c.x -> P) \\ {|c|}" }
    ensures behind { process_text names (Renaming (Hiding p (Enumeration []))
        (record {
          from = record { channel = 0; fields = one x };
          to = record
              { channel = 0; fields = one (number 1) };
        } ∷ [])) ≡ codes "(P \\ {})[[c.x <- c.1]]" }
    ensures shared { process_text names (GeneralisedParallel (Guard (Combine Equals x x) p)
        (Enumeration []) (Hiding p (Enumeration []))) ≡ codes "x == x & P [| {} |] (P \\ {})" }
    ensures replicated { process_text names (ReplicatedExternalChoice 0 (SetOf (one x))
        (SlidingChoice (Call 0 (two x x)) Omega)) ≡ codes "[] x:{x} @ P(x,x) [> _OMEGA" }
    ensures field { process_text names (on_c (InputFrom 0 (SetOf no_expressions)) Stop)
        ≡ codes "c?x:{} -> STOP" }
{}

/// What is told of an expression has its value, or lacks one as it does. Without types it is the expression, and so is what
/// is told of a set.
pub fn told_expressions_have_their_values()
    ensures value { (types : Types) (names : Names) (e : Expression)
        → value types (told (with_types types names) e) ≡ value types e }
    ensures written { (names : Names) (e : Expression) → names.types ≡ None → told names e ≡ e }
    ensures set { (types : Types) (names : Names) (e : Expression) (members : Values)
        → value types e ≡ Ok (Set members) → told (with_types types names) e ≡ e }
{}

/// With types, arguments, given fields, fields of events and conditions are told by their values, but for sets, for what has
/// no value, and for what has a free name. The sets of inputs and of replicated processes stay too.
pub fn texts_of_told_processes()
    ensures arguments { process_text telling
        (Call 0 (two (Combine Add (number 1) (number 2)) (Combine Add x (number 1))))
        ≡ codes "P(3,x + 1)" }
    ensures fields { process_text telling
        (Prefix 0 (Given (Combine Subtract (number 1) (number 2)) ∷ Input 0
        ∷ Given (SequenceOf (two (Apply Negate (number 1)) (number 0))) ∷ []) p)
        ≡ codes "c.-1?x!< -1,0> -> P" }
    ensures sets { process_text telling (Call 0
        (two (SetOf (two (number 1) (number 0)))
        (SequenceOf (one (SetOf (two (number 1) (number 0))))))) ≡ codes "P({1,0},<{0,1}>)" }
    ensures fault { process_text telling (Call 0 (one (Combine Modulus (number 1) (number 0))))
        ≡ codes "P(1 % 0)" }
    ensures conditions { process_text telling
        (Guard (Combine Equals (number 1) (number 1))
        (If (Combine LessThan (number 1) (number 1)) p p))
        ≡ codes "true & (if false then P else P)" }
    ensures events { process_text telling
        (Hiding p (Enumeration (record
        { channel = 0; fields = one (Combine Add (number 1) (number 1)) } ∷ [])))
        ≡ codes "P \\ {c.2}" }
    ensures input { process_text telling
        (on_c (InputFrom 0 (SetOf (one (Combine Add (number 1) (number 1))))) p)
        ≡ codes "c?x:{1 + 1} -> P" }
    ensures replicated { process_text telling
        (ReplicatedExternalChoice 0 (SetOf (one (Combine Add (number 1) (number 1)))) p)
        ≡ codes "[] x:{1 + 1} @ P" }
{}
