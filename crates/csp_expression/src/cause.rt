//! Why a rule has no value, whether or not the kinds are checked.

ghost use Rattle.csp_expression.specs.Cause.{cause_of};
ghost use Rattle.csp_expression.specs.Fault.{IsFaultOf};

use crate::fault::Fault;

/// A cause for which a rule of a term needs a value that does not exist, over any script: a fault, or an operand of the
/// wrong kind.
#[derive(Clone, Copy, Debug, PartialEq, Eq)]
pub enum Cause {
    /// A given value lies outside its field set.
    Range,
    /// A number outside 32 bits, or a set or sequence of over 1,024 members.
    Overflow,
    /// `head` or `tail` of the empty sequence.
    Empty,
    /// The right side of `%` is not positive.
    Modulus,
    /// Replicated `|~|` over the empty set.
    Choice,
    /// An operand of the wrong kind, a name that stands for nothing, or another number of parts. What is closed and
    /// well-kinded never meets it.
    Kind,
}

impl Cause {
    /// The fault that the cause is, and none for an operand of the wrong kind alone.
    pub fn fault(self) -> Option<Fault>
        ensures { IsFaultOf (cause_of self) result }
    {
        match self {
            Cause::Range => Some(Fault::Range),
            Cause::Overflow => Some(Fault::Overflow),
            Cause::Empty => Some(Fault::Empty),
            Cause::Modulus => Some(Fault::Modulus),
            Cause::Choice => Some(Fault::Choice),
            Cause::Kind => None,
        }
    }
}
