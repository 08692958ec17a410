//! Terms, and what one look at them shows, as they are kept: by the bytes that spell terms.
//!
//! A `PackedTerm` is a term within the limits, as the bytes that spell it; its type keeps that they do. Two are equal
//! exactly where the terms are, since a term has one spelling, so that it is the bytes that are compared, hashed, moved
//! and dropped. A `KeptTerm` is any term: packed where it is within the limits, and whole past them.
//!
//! A `PackedExpansion` is a term of a script with what one firing shows of it, as an `Expansion` is, but the term and
//! those that its steps lead to are bytes. Its type keeps that the form is exactly what the rules say of the term. Each
//! target comes with its hash, so that a table in which it is looked up need not hash it.
#![tactic(auto)]

mod hashed_term;
mod hashing;
mod kept_term;
mod large_term;
pub mod laws;
mod packed_expansion;
mod packed_form;
mod packed_term;

pub use hashed_term::HashedTerm;
pub use hashing::term_hash;
pub use kept_term::KeptTerm;
pub use large_term::LargeTerm;
pub use packed_expansion::PackedExpansion;
pub use packed_form::{PackedForm, PackedStep};
pub use packed_term::PackedTerm;
