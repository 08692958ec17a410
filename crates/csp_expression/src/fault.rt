//! Why a rule of a checked script has no value.

ghost use Rattle.std.specs.Prelude.{◌≡◌};
ghost use Rattle.theory_semantics.specs.Meaning.Causes.{cause_number, cause_word};
ghost use Rattle.csp_expression.specs.Fault.{cause_of};

/// A cause for which a rule of a closed, well-kinded term needs a value that does not exist (this profile).
#[derive(Clone, Copy, Debug, PartialEq, Eq)]
pub enum Fault {
    /// A given value lies outside its field set.
    Range,
    /// A number outside 32 bits, or a set or sequence of over 1,024 members.
    Overflow,
    /// `head` or `tail` of the empty sequence.
    Empty,
    /// The right side of `%` is not positive.
    Modulus,
    /// Replicated `|~|` over the empty set.
    Choice,
}

impl Fault {
    /// The fault's number, from 1 to 5.
    pub fn number(self) -> u32
        ensures { result ≡ cause_number (cause_of self) }
    {
        match self {
            Fault::Range => 1,
            Fault::Overflow => 2,
            Fault::Empty => 3,
            Fault::Modulus => 4,
            Fault::Choice => 5,
        }
    }

    /// The word that is printed for the fault.
    pub fn word(self) -> &'static str
        ensures { result.now ≡ cause_word (cause_of self) }
    {
        match self {
            Fault::Range => "range",
            Fault::Overflow => "overflow",
            Fault::Empty => "empty",
            Fault::Modulus => "modulus",
            Fault::Choice => "choice",
        }
    }
}
