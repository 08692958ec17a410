//! What is to blame where a rule lacks a value.
//!
//! A term whose rule lacks a value has a first cause. What is to blame for it is a part of the term: the smallest
//! expression that has no value though its operands have one, a value outside of the set of its field, or an internal
//! choice over an empty set. There is something to blame exactly where there is a cause, and it explains that cause.
#![tactic(auto)]

ghost use Rattle.std.specs.Prelude.{◌≡◌};
ghost use Rattle.std.specs.Option.{option_map, option_or};
ghost use Rattle.theory_syntax.specs.Process.{Process, Script};
ghost use Rattle.theory_semantics.specs.Meaning.Faults.{cause_in};
ghost use Rattle.theory_faults.specs.Culprit.{cause_of, first_found};
ghost use Rattle.theory_faults.specs.Processes.{culprit_in, looked_at, own_culprit};
ghost use Rattle.theory_faults.specs.Truth.{IsToBlame};

/// What is to blame in a term has the term's first cause, and where there is no cause nothing is to blame.
pub fn culprits_are_causes()
    ensures { (script : Script) (p : Process) → option_map cause_of (culprit_in script p)
        ≡ cause_in script p }
{}

/// It explains that cause: an expression has no value by it, though its operands have one, a value lies outside of the
/// set of its field, or a choice is over an empty set.
pub fn culprits_explain_causes()
    ensures { (script : Script) (p : Process) → IsToBlame script (culprit_in script p)
        (cause_in script p) }
{}

/// It stands in the term's own parts, or else in the processes that the rule looks at, the first of them first.
pub fn culprits_of_parts()
    ensures { (script : Script) (p : Process) →
        culprit_in script p ≡ option_or (own_culprit script p) (first_found (culprit_in script) (looked_at script p)) }
{}
