//! Why an explanation did not go out.

ghost use Rattle.std.specs.Prelude.{◌≡◌};

use csp_term::Memory;

/// Why an explanation did not go out whole.
#[derive(Clone, Copy, Debug, PartialEq, Eq)]
pub enum Untold {
    /// Memory was refused for it, and nothing of it went out.
    Memory,
    /// The output failed, and a beginning of it went out.
    Output,
}

impl From<Memory> for Untold {
    ghost use Rattle.explain_program.specs.declared.untold.Untold.TheVariants.{Memory as no_memory};

    ghost from_gives = { λ _ why. why ≡ no_memory };

    fn from(_refused: Memory) -> Untold {
        Untold::Memory
    }
}
