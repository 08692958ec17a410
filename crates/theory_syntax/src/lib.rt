//! Values, expressions, processes and scripts as trees.
//!
//! With the orders of trees, which are total, the codes by which a proof tells them apart, and the facts that show them
//! right. The forms are those of CSPM: Roscoe, *The Theory and Practice of Concurrency*, and the manual of FDR.
//!
//! The operators of expressions, of sets of events and of processes, and the model of an assertion, stand here as types
//! of the code too, with what each stands for, so that a tree as it is written and a term have the same ones.
#![tactic(auto)]

mod event_set_operator;
mod model;
mod operator;
mod process_operator;
mod reading;

ghost use Rattle.std.specs.Prelude.{◌≡◌, IsTrue};
ghost use Rattle.theory_syntax.specs.Value.{Value, value_cmp, Event, event_eq, action_cmp};
ghost use Rattle.std.specs.declared.cmp.Ordering.TheVariants.{Equal};
ghost use Rattle.std.specs.Cmp.{IsTotalOrder};
ghost use Rattle.theory_syntax.specs.Expression.{Expression};
ghost use Rattle.theory_syntax.specs.Process.{EventSet, Process};
ghost use Rattle.theory_syntax.specs.Order.{expression_cmp, event_set_cmp, process_cmp};

pub use event_set_operator::EventSetOperator;
pub use model::Model;
pub use operator::{BinaryOperator, UnaryOperator};
pub use process_operator::{ProcessOperator, ReplicatedOperator};
pub use reading::Unfolding;

/// Values and events that compare equal are the same.
pub fn equal_is_same()
    ensures values { (v w : Value) → value_cmp v w ≡ Equal → v ≡ w }
    ensures same_values { (v : Value) → value_cmp v v ≡ Equal }
    ensures events { (e f : Event) → IsTrue (event_eq e f) → e ≡ f }
    ensures same_events { (e : Event) → IsTrue (event_eq e e) }
{}

/// Terms that compare equal are the same, and each compares equal to itself; so do expressions and sets of events.
pub fn equal_terms_are_same()
    ensures processes { (p q : Process) → process_cmp p q ≡ Equal → p ≡ q }
    ensures same_processes { (p : Process) → process_cmp p p ≡ Equal }
    ensures expressions { (e f : Expression) → expression_cmp e f ≡ Equal → e ≡ f }
    ensures same_expressions { (e : Expression) → expression_cmp e e ≡ Equal }
    ensures event_sets { (a b : EventSet) → event_set_cmp a b ≡ Equal → a ≡ b }
    ensures same_event_sets { (a : EventSet) → event_set_cmp a a ≡ Equal }
{}

/// Actions are totally ordered.
pub fn actions_are_ordered()
    ensures { IsTotalOrder action_cmp }
{}

/// So are expressions and sets of events.
pub fn processes_are_ordered()
    ensures processes { IsTotalOrder process_cmp }
    ensures expressions { IsTotalOrder expression_cmp }
    ensures event_sets { IsTotalOrder event_set_cmp }
{}
