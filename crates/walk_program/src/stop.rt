//! Why a walk does not come to its end.

ghost use Rattle.std.specs.Prelude.{◌≡◌, false};
ghost use Rattle.program.specs.Given.{sent};
ghost use Rattle.program.specs.Running.{IsGiven};
ghost use Rattle.walk_program.specs.Stops.{stop_line};

use csp_term::Memory;
use program::{Refusal, refuse, refuse_words};
use report::Sink;
use std::alloc::AllocError;

/// Why a walk does not come to its end.
#[derive(Clone, Copy, Debug, PartialEq, Eq)]
pub enum Stop {
    /// The file or its text is refused, memory was, or the output failed.
    Refused(Refusal),
    /// The script has no assertion of this number.
    NoAssertion,
    /// The assertion has no specification.
    NoSpecification,
    /// The input failed, or gave more than can be counted.
    Input,
}

/// Gives the line of what stopped the run to `err`, and answers the status of a refusal.
pub(crate) fn report_stop<E: Sink>(why: Stop, err: &mut E) -> u8
    requires { E.has_failed err.old ≡ false }
    ensures status { result ≡ 3 }
    ensures line { IsGiven (sent E.taken E.has_failed err.old err.new) (stop_line why) }
{
    match why {
        Stop::Refused(why) => refuse(why, err),
        Stop::NoAssertion => refuse_words("refused assertion\n", err),
        Stop::NoSpecification => refuse_words("refused specification\n", err),
        Stop::Input => refuse_words("refused input\n", err),
    }
}

impl From<Memory> for Stop {
    ghost use Rattle.std.specs.Prelude.{◌≡◌};
    ghost use Rattle.program.specs.declared.refusal.Refusal.TheVariants.{Memory as no_memory};
    ghost use Rattle.walk_program.specs.declared.stop.Stop.TheVariants.{Refused};

    ghost from_gives = { λ _ stop. stop ≡ Refused no_memory };

    fn from(_refused: Memory) -> Stop {
        Stop::Refused(Refusal::Memory)
    }
}

impl From<AllocError> for Stop {
    ghost use Rattle.std.specs.Prelude.{◌≡◌};
    ghost use Rattle.program.specs.declared.refusal.Refusal.TheVariants.{Memory as no_memory};
    ghost use Rattle.walk_program.specs.declared.stop.Stop.TheVariants.{Refused};

    ghost from_gives = { λ _ stop. stop ≡ Refused no_memory };

    fn from(_refused: AllocError) -> Stop {
        Stop::Refused(Refusal::Memory)
    }
}
