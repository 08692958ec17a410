//! Equations are numbers, of a type of their own.

/// An equation, by its place among the script's equations, from 0.
#[derive(Clone, Copy, PartialEq, Eq, PartialOrd, Ord, Hash)]
pub struct EquationId(pub u32);
