//! Expressions, their values, and values put in for names.
//!
//! An expression stands for one of the definitions, by `expression_of`, and every call here is stated over that one: a
//! copy stands for the same, `==`, the order and the hash of two expressions are those of what they stand for,
//! whichever allocator holds them, `eval` answers the value or the first fault of a closed, well-kinded expression, and
//! values are put in as the definitions say. `look` and `find_value`, over any expression, have one cause more: an
//! operand of the wrong kind.
#![tactic(auto)]

mod arithmetic;
mod cause;
mod comparison;
mod connectives;
mod constructors;
mod eval;
mod eval_fault;
mod expr;
mod fault;
pub mod laws;
mod limits;
mod name;
mod no_value;
mod ranges;
mod seen;
mod sequences;
mod sets;
mod substitution;
mod types;

pub use cause::Cause;
pub use eval_fault::EvalFault;
pub use expr::Expr;
pub use fault::Fault;
pub use limits::{are_within_depth, room_left_by};
pub use name::{DatatypeId, Name, NametypeId};
pub use no_value::NoValue;
pub use seen::Seen;
pub use substitution::{Binding, put_in_all};
pub use theory_syntax::{BinaryOperator, UnaryOperator};
pub use types::{ConstructorFields, Constructors, TypeTable};
