//! Why a text has no tokens.

ghost use Rattle.std.specs.Prelude.{◌≡◌};
ghost use Rattle.csp_lex.specs.declared.refusals.Refused.TheVariants.{Memory};

use crate::places::Place;
use std::alloc::AllocFailed;
use std::fmt;
use thiserror::Error;

/// What is wrong with a text that has no tokens.
#[derive(Clone, Copy, Debug, PartialEq, Eq)]
pub enum TextFault {
    /// A character that begins no token.
    NoToken,
    /// A comment `{-` without its end.
    OpenComment,
    /// A number over `GREATEST_NUMBER`.
    LargeNumber,
    /// Bytes that are not UTF-8.
    NotUtf8,
    /// More bytes than `LONGEST_TEXT`.
    LongText,
}

impl TextFault {
    ghost use Rattle.theory_text.specs.Reading.{text_fault_spelling};
    ghost use Rattle.csp_lex.specs.Refusals.{fault_of};

    /// The number of the refusal, as it is printed.
    pub fn number(self) -> &'static str
        ensures { result.now ≡ text_fault_spelling (fault_of self) }
    {
        match self {
            TextFault::NoToken => "L01",
            TextFault::OpenComment => "L02",
            TextFault::LargeNumber => "L03",
            TextFault::NotUtf8 => "L04",
            TextFault::LongText => "L05",
        }
    }
}

impl fmt::Display for TextFault {
    ghost use Rattle.std.specs.Prelude.{Some};
    ghost use Rattle.theory_text.specs.Reading.{text_fault_spelling};
    ghost use Rattle.csp_lex.specs.Refusals.{fault_of};

    ghost output = { λ fault. Some (text_fault_spelling (fault_of fault)) };

    fn fmt<W: fmt::Write>(&self, f: &mut fmt::Formatter<W>) -> fmt::Result {
        f.write_str(self.number())
    }
}

/// Why a text was not divided into tokens.
#[derive(Clone, Copy, Debug, PartialEq, Eq, Drop, Error)]
pub enum Refused {
    /// The text has no tokens, by this fault at this place.
    #[error("{fault} at {place}")]
    Text { fault: TextFault, place: Place },
    /// Memory was refused, and nothing is said of the text.
    #[error("out of memory")]
    Memory,
}

impl<T: Drop> From<AllocFailed<T>> for Refused {
    ghost from_gives = { λ _ refused. refused ≡ Memory };

    fn from(_failed: AllocFailed<T>) -> Refused {
        Refused::Memory
    }
}
