//! Why a reader of tokens stopped.

ghost use Rattle.std.specs.Prelude.{◌≡◌};
ghost use Rattle.csp_parse.specs.declared.stops.Stopped.TheVariants.{Memory};

use std::alloc::{AllocError, AllocFailed};

/// Why a reader of tokens stopped before the next one.
#[derive(Clone, Copy, Debug, PartialEq, Eq, Drop)]
pub(crate) enum Stopped {
    /// What is read doesn't go on with the next token, or with the end.
    Here,
    /// With the next token its declaration is too high.
    High,
    /// Memory was refused.
    Memory,
}

impl From<AllocError> for Stopped {
    ghost from_gives = { λ _ stopped. stopped ≡ Memory };

    fn from(_failed: AllocError) -> Stopped {
        Stopped::Memory
    }
}

impl<T: Drop> From<AllocFailed<T>> for Stopped {
    ghost from_gives = { λ _ stopped. stopped ≡ Memory };

    fn from(_failed: AllocFailed<T>) -> Stopped {
        Stopped::Memory
    }
}
