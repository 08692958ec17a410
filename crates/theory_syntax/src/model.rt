//! What an assertion compares.

/// What a refinement compares (FDR manual).
#[derive(Clone, Copy, PartialEq, Eq, PartialOrd, Ord, Hash)]
pub enum Model {
    /// `[T=`: the traces.
    Traces,
    /// `[F=`: the traces and the stable failures.
    Failures,
}
