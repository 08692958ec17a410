//! Why tokens are no script.

ghost use Rattle.std.specs.Prelude.{◌≡◌};

use csp_lex::Place;
use std::fmt;
use thiserror::Error;

/// What is wrong with tokens that are no script.
#[derive(Clone, Copy, Debug, PartialEq, Eq)]
pub enum GrammarFault {
    /// A token with which the tokens so far begin no script.
    UnexpectedToken,
    /// A token with which its declaration is too high.
    Nested,
    /// The end of tokens that begin a script and are none.
    UnexpectedEnd,
    /// An unexpected token that is an infix operator of processes, a hiding sign or an opening square bracket.
    MixedOperators,
}

impl GrammarFault {
    ghost use Rattle.theory_text.specs.Reading.{grammar_fault_spelling};
    ghost use Rattle.csp_parse.specs.Refusals.{fault_of};

    /// The number of the refusal, as it is printed.
    pub fn number(self) -> &'static str
        ensures { result.now ≡ grammar_fault_spelling (fault_of self) }
    {
        match self {
            GrammarFault::UnexpectedToken => "S01",
            GrammarFault::Nested => "S02",
            GrammarFault::UnexpectedEnd => "S03",
            GrammarFault::MixedOperators => "S04",
        }
    }
}

impl fmt::Display for GrammarFault {
    ghost use Rattle.std.specs.Prelude.{Some};
    ghost use Rattle.theory_text.specs.Reading.{grammar_fault_spelling};
    ghost use Rattle.csp_parse.specs.Refusals.{fault_of};

    ghost output = { λ fault. Some (grammar_fault_spelling (fault_of fault)) };

    fn fmt<W: fmt::Write>(&self, f: &mut fmt::Formatter<W>) -> fmt::Result {
        f.write_str(self.number())
    }
}

/// Why tokens were not read as a script.
#[derive(Clone, Copy, Debug, PartialEq, Eq, Drop, Error)]
pub enum Refused {
    /// The tokens are no script, by this fault at this place.
    #[error("{fault} at {place}")]
    Grammar { fault: GrammarFault, place: Place },
    /// Memory was refused, and nothing is said of the tokens.
    #[error("out of memory")]
    Memory,
}
