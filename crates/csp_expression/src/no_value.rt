//! Why nothing is answered, whether or not the kinds are checked.

ghost use Rattle.std.specs.Prelude.{◌≡◌};

use crate::cause::Cause;
use csp_value::Memory;
use std::alloc::AllocFailed;
use thiserror::Error;

/// Why the value of an expression, a set of events, a renaming or the steps of a term are not answered, over any
/// script.
#[derive(Clone, Copy, Debug, PartialEq, Eq, Error)]
pub enum NoValue {
    /// There is no room for the answer.
    #[error("out of memory")]
    Memory,
    /// A value is needed that does not exist. This is the first cause.
    #[error("there is no value")]
    Cause(Cause),
}

impl From<Memory> for NoValue {
    ghost use Rattle.csp_expression.specs.declared.no_value.NoValue.TheVariants.{Memory as no_memory};

    ghost from_gives = { λ _ e. e ≡ no_memory };

    fn from(_refused: Memory) -> NoValue {
        NoValue::Memory
    }
}

impl From<Cause> for NoValue {
    ghost use Rattle.csp_expression.specs.declared.no_value.NoValue.TheVariants.{Cause as because};

    ghost from_gives = { λ cause e. e ≡ because cause };

    fn from(cause: Cause) -> NoValue {
        NoValue::Cause(cause)
    }
}

impl<T: Drop> From<AllocFailed<T>> for NoValue {
    ghost use Rattle.csp_expression.specs.declared.no_value.NoValue.TheVariants.{Memory as no_memory};

    ghost from_gives = { λ _ e. e ≡ no_memory };

    fn from(_refused: AllocFailed<T>) -> NoValue {
        NoValue::Memory
    }
}
