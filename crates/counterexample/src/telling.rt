//! How the steps of a run are told.

/// How the steps of a run are told.
#[derive(Clone, Copy, Debug, PartialEq, Eq)]
pub enum Telling {
    /// Each with the state that it leads to.
    EachStep,
    /// The same, but steps that unfold a name are told with the step before, or at the start, and no state between them is.
    Folded,
    /// The events alone, seen and hidden, and the last state.
    ByEvents,
}
