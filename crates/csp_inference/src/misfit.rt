//! Why no kinds are found.

ghost use Rattle.std.specs.Prelude.{◌≡◌};

use csp_value::Memory;
use std::alloc::{AllocError, AllocFailed};
use thiserror::Error;

/// Why no kinds are found.
#[derive(Clone, Copy, Debug, PartialEq, Eq, Error)]
pub enum Misfit {
    /// Memory was refused, and nothing is said of kinds.
    #[error("out of memory")]
    Memory,
    /// No kinds fit.
    #[error("no kinds fit")]
    NoKinds,
}

impl From<Memory> for Misfit {
    ghost use Rattle.csp_inference.specs.declared.misfit.Misfit.TheVariants.{Memory as no_memory};

    ghost from_gives = { λ _ e. e ≡ no_memory };

    fn from(_refused: Memory) -> Misfit {
        Misfit::Memory
    }
}

impl From<AllocError> for Misfit {
    ghost use Rattle.csp_inference.specs.declared.misfit.Misfit.TheVariants.{Memory as no_memory};

    ghost from_gives = { λ _ e. e ≡ no_memory };

    fn from(_refused: AllocError) -> Misfit {
        Misfit::Memory
    }
}

impl<T: Drop> From<AllocFailed<T>> for Misfit {
    ghost use Rattle.csp_inference.specs.declared.misfit.Misfit.TheVariants.{Memory as no_memory};

    ghost from_gives = { λ _ e. e ≡ no_memory };

    fn from(_refused: AllocFailed<T>) -> Misfit {
        Misfit::Memory
    }
}
