//! How the names of a script are read.

/// How a called name is read.
#[derive(Clone, Copy, PartialEq, Eq, PartialOrd, Ord, Hash)]
pub enum Unfolding {
    /// It does a tau to the body of its equation.
    ByTau,
    /// The body stands in its place at once.
    AtOnce,
}
