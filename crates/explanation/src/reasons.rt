//! Why an assertion has no answer, in words.

ghost use Rattle.std.specs.Prelude.{◌≡◌};
ghost use Rattle.csp_expression.specs.Fault.{cause_of};
ghost use Rattle.verdict.specs.Outcome.{why_of};
ghost use Rattle.theory_explanation.specs.Reasons as told;

use csp_term::Fault;
use verdict::Why;

/// The reason, in a sentence.
pub(crate) fn reason(why: Why) -> &'static str
    ensures { result.now ≡ told.reason (why_of why) }
{
    match why {
        Why::Pairs =>
            "  more pairs are reachable, of a node of the specification and a process of the implementation, than --max-pairs allows\n",
        Why::Nodes =>
            "  the specification has more nodes, or more states in one of them, than --max-nodes allows\n",
        Why::Term => "  a side comes to a process that is too large, and no option allows more\n",
        Why::Fault(fault) => fault_sentence(fault),
        Why::Memory => "  memory was refused\n",
    }
}

// What a side comes to that has no value.
fn fault_sentence(fault: Fault) -> &'static str
    ensures { result.now ≡ told.cause_sentence (cause_of fault) }
{
    match fault {
        Fault::Range => "  a side comes to a value that lies outside of the set of its field\n",
        Fault::Overflow =>
            "  a side comes to a number outside of 32 bits, or to a set or sequence that is too long\n",
        Fault::Empty => "  a side comes to the head or tail of an empty sequence\n",
        Fault::Modulus => "  a side comes to a remainder by a number that is not positive\n",
        Fault::Choice => "  a side comes to an internal choice over the empty set\n",
    }
}
