//! Why bytes are not read as a term.

ghost use Rattle.std.specs.Prelude.{◌≡◌};

use csp_value::Memory;
use std::alloc::{AllocError, AllocFailed};
use thiserror::Error;

/// Why bytes are not read as a term.
#[derive(Clone, Copy, Debug, PartialEq, Eq, Error)]
pub enum UnpackFault {
    /// There is no room for the term.
    #[error("T01 out of memory")]
    Memory,
    /// The bytes are the spelling of no term.
    #[error("T03 the bytes spell no term")]
    NotATerm,
}

impl From<Memory> for UnpackFault {
    ghost use Rattle.csp_spell.specs.declared.fault.UnpackFault.TheVariants.{Memory as no_memory};

    ghost from_gives = { λ _ e. e ≡ no_memory };

    fn from(_refused: Memory) -> UnpackFault {
        UnpackFault::Memory
    }
}

impl From<AllocError> for UnpackFault {
    ghost use Rattle.csp_spell.specs.declared.fault.UnpackFault.TheVariants.{Memory as no_memory};

    ghost from_gives = { λ _ e. e ≡ no_memory };

    fn from(_refused: AllocError) -> UnpackFault {
        UnpackFault::Memory
    }
}

impl<T: Drop> From<AllocFailed<T>> for UnpackFault {
    ghost use Rattle.csp_spell.specs.declared.fault.UnpackFault.TheVariants.{Memory as no_memory};

    ghost from_gives = { λ _ e. e ≡ no_memory };

    fn from(_refused: AllocFailed<T>) -> UnpackFault {
        UnpackFault::Memory
    }
}
