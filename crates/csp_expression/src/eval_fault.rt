//! Why the value of an expression is not answered.

ghost use Rattle.std.specs.Prelude.{◌≡◌};

use crate::fault::Fault;
use csp_value::Memory;
use thiserror::Error;

/// Why the value of a closed, well-kinded expression is not answered.
#[derive(Clone, Copy, Debug, PartialEq, Eq, Error)]
pub enum EvalFault {
    /// There is no room for the answer.
    #[error("out of memory")]
    Memory,
    /// A value is needed that does not exist. This is the first cause.
    #[error("there is no value")]
    Fault(Fault),
}

impl From<Memory> for EvalFault {
    ghost use Rattle.csp_expression.specs.declared.eval_fault.EvalFault.TheVariants.{Memory as no_memory};

    ghost from_gives = { λ _ e. e ≡ no_memory };

    fn from(_refused: Memory) -> EvalFault {
        EvalFault::Memory
    }
}
