//! The reader of the grammar, as programs over the next token.
//!
//! Each form of the grammar is read by its program, which reads all tokens of the form and stops at the first one after
//! which no tokens of the form go on. So tokens have one tree, or one refusal.
#![tactic(auto)]

ghost use Rattle.std.specs.Prelude.{◌≡◌, ℕ, List};
ghost use Rattle.theory_text.specs.Grammar.{IsExpression, IsProcess, IsDeclaration, IsScript};
ghost use Rattle.theory_text.specs.Place.{Place};
ghost use Rattle.theory_text.specs.Raw.{RawScript};
ghost use Rattle.theory_text.specs.Token.{PlacedToken};
ghost use Rattle.theory_text.specs.Height.{IsParsed};
ghost use Rattle.theory_text.specs.Reading.{IsRead, AreUnrefused, IsUnrefusedText};
ghost use Rattle.theory_reader.specs.Counted.{ReadsLow};
ghost use Rattle.theory_reader.specs.Forms.{Form, AtLevel, Disjunction, OfProcess, OfDeclaration};
ghost use Rattle.theory_reader.specs.Programs.{Standing, run};
ghost use Rattle.theory_reader.specs.Reader.{body, reads};
ghost use Rattle.theory_reader.specs.Refused.{ReadsWhole, ReadsSome, RefusesNext};
ghost use Rattle.theory_reader.specs.Scripts.{ReadsLowScript, RefusesScript};

/// Each form is read as its own program says.
pub fn forms_are_read_by_their_programs()
    ensures { (f : Form) (s : Standing) → reads f s ≡ run reads (body f) s }
{}

/// All tokens of a form of the grammar are read as its tree, whatever their heights: expressions, processes and declarations.
pub fn forms_are_read()
    ensures expressions { ReadsWhole (AtLevel Disjunction) IsExpression }
    ensures processes { ReadsWhole OfProcess IsProcess }
    ensures declarations { ReadsWhole OfDeclaration IsDeclaration }
{}

/// What is read as an expression, a process or a declaration is one, and where reading stops the tokens that are passed
/// begin one.
pub fn read_forms_are_forms()
    ensures expressions { ReadsSome (AtLevel Disjunction) IsExpression }
    ensures processes { ReadsSome OfProcess IsProcess }
    ensures declarations { ReadsSome OfDeclaration IsDeclaration }
{}

/// Where a reader stops, some tokens of its form begin with those that are passed, and none go on with the next one.
pub fn refused_tokens_are_in_no_form()
    ensures expressions { RefusesNext (AtLevel Disjunction) IsExpression }
    ensures processes { RefusesNext OfProcess IsProcess }
    ensures declarations { RefusesNext OfDeclaration IsDeclaration }
{}

/// The tokens that are passed are within the limit of heights, and reading stops for height at the first one above it.
pub fn passed_tokens_are_low()
    ensures { (f : Form) → ReadsLow f }
{}

/// What is read as a script is one, and no token of it is too high.
pub fn read_scripts_are_scripts()
    ensures { (s : Standing) → ReadsLowScript s }
{}

/// Where reading a script stops, the refusal is that of its tokens.
pub fn refusals_are_of_the_tokens()
    ensures { (s : Standing) → RefusesScript s }
{}

/// Tokens have at most one tree, and so has a text.
pub fn tree_is_one()
    ensures tokens { (ts : List PlacedToken) (s u : RawScript) → IsScript ts s → IsScript ts u
        → s ≡ u }
    ensures text { (bytes : List ℕ) (s u : RawScript) → IsRead bytes s → IsRead bytes u → s ≡ u }
{}

/// Tokens that are not refused have a tree within the limit of heights, and so has a text that is not refused.
pub fn unrefused_text_is_read()
    ensures tokens { (ts : List PlacedToken) (end : Place) → AreUnrefused ts end
        → (s : RawScript) × IsParsed ts s }
    ensures text { (bytes : List ℕ) → IsUnrefusedText bytes → (s : RawScript) × IsRead bytes s }
{}
