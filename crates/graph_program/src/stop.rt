//! Why a request is not met.

ghost use Rattle.std.specs.Prelude.{◌≡◌, false};
ghost use Rattle.program.specs.Given.{sent};
ghost use Rattle.program.specs.Running.{IsGiven};
ghost use Rattle.graph_program.specs.Stops.{fault_line, no_graph_line, stop_line};
ghost use Rattle.csp_expression.specs.Fault.{cause_of};

use csp_term::{Fault, Memory};
use program::{Refusal, refuse, refuse_words};
use report::{Sink, push_each};

/// Why a request is not met.
#[derive(Clone, Copy, Debug, PartialEq, Eq)]
pub enum Stop {
    /// The file or its text is refused, memory was, or the output failed.
    Refused(Refusal),
    /// The script has no assertion of this number.
    NoAssertion,
    /// The assertion has no specification.
    NoSpecification,
    /// There is no graph of so few states.
    NoGraph(state_graph::Stop),
}

/// Gives the line of what stopped the run to `err`, and answers the status of a refusal.
pub(crate) fn report_stop<E: Sink>(why: Stop, err: &mut E) -> u8
    requires { E.has_failed err.old ≡ false }
    ensures status { result ≡ 3 }
    ensures line { IsGiven (sent E.taken E.has_failed err.old err.new) (stop_line why) }
{
    match why {
        Stop::Refused(why) => refuse(why, err),
        Stop::NoAssertion => refuse_words("refused assertion\n", err),
        Stop::NoSpecification => refuse_words("refused specification\n", err),
        Stop::NoGraph(why) => report_no_graph(why, err),
    }
}

// The same of a term that has no graph.
fn report_no_graph<E: Sink>(why: state_graph::Stop, err: &mut E) -> u8
    requires { E.has_failed err.old ≡ false }
    ensures status { result ≡ 3 }
    ensures line { IsGiven (sent E.taken E.has_failed err.old err.new) (no_graph_line why) }
{
    match why {
        state_graph::Stop::States => refuse_words("refused states\n", err),
        state_graph::Stop::Fault(fault) => report_fault(fault, err),
        state_graph::Stop::Term => refuse_words("refused term\n", err),
        state_graph::Stop::Memory => refuse(Refusal::Memory, err),
    }
}

// The same of a state that has no meaning.
fn report_fault<E: Sink>(fault: Fault, err: &mut E) -> u8
    requires { E.has_failed err.old ≡ false }
    ensures status { result ≡ 3 }
    ensures line { IsGiven (sent E.taken E.has_failed err.old err.new)
        (fault_line (cause_of fault)) }
{
    let _ = push_each(&["refused fault ", fault.word(), "\n"], err);
    3
}

impl From<Memory> for Stop {
    ghost use Rattle.std.specs.Prelude.{◌≡◌};
    ghost use Rattle.program.specs.declared.refusal.Refusal.TheVariants.{Memory as no_memory};
    ghost use Rattle.graph_program.specs.declared.stop.Stop.TheVariants.{Refused};

    ghost from_gives = { λ _ stop. stop ≡ Refused no_memory };

    fn from(_refused: Memory) -> Stop {
        Stop::Refused(Refusal::Memory)
    }
}

impl From<state_graph::Stop> for Stop {
    ghost use Rattle.std.specs.Prelude.{◌≡◌};
    ghost use Rattle.graph_program.specs.declared.stop.Stop.TheVariants.{NoGraph};

    ghost from_gives = { λ why stop. stop ≡ NoGraph why };

    fn from(why: state_graph::Stop) -> Stop {
        Stop::NoGraph(why)
    }
}
