//! Why no kinds fit the items of a script.

ghost use Rattle.std.specs.Prelude.{◌≡◌};

use csp_lex::Place;
use csp_value::Memory;
use thiserror::Error;

/// Why no kinds that fit a script's equations and assertions are found.
#[derive(Clone, Copy, Debug, PartialEq, Eq, Error)]
pub enum FitFault {
    /// No kinds fit the equation or assertion at the place and those before it.
    #[error("no kinds fit at {place}")]
    WrongKind { place: Place },
    /// Memory was refused, and nothing is said of the script.
    #[error("out of memory")]
    Memory,
}

impl From<Memory> for FitFault {
    ghost use Rattle.csp_inference.specs.declared.fit_fault.FitFault.TheVariants.{Memory as no_memory};

    ghost from_gives = { λ _ e. e ≡ no_memory };

    fn from(_refused: Memory) -> FitFault {
        FitFault::Memory
    }
}
