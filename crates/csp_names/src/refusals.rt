//! Why a tree has no checked script.

ghost use Rattle.std.specs.Prelude.{◌≡◌};

use csp_lex::Place;
use csp_value::Memory;
use std::alloc::{AllocError, AllocFailed};
use std::fmt;
use thiserror::Error;

/// What is wrong with a tree that has no checked script.
#[derive(Clone, Copy, Debug, PartialEq, Eq)]
pub enum KindFault {
    /// A name that is neither bound nor declared, or, in the set of a nametype or field, not declared above.
    UnknownName,
    /// A declared name that is declared again, a bound name that is a declared one, or a parameter named twice in one
    /// head.
    DeclaredTwice,
    /// A name of the wrong class, or a set, an equation or an assertion that no kinds fit.
    WrongKind,
    /// Another number of arguments or fields than are declared.
    WrongCount,
    /// A set that has no value, or the set of a field without a member.
    BadFieldSet,
    /// A channel with which all channels so far have too many events.
    TooManyEvents,
}

impl KindFault {
    ghost use Rattle.theory_checking.specs.Checked.{kind_fault_spelling};
    ghost use Rattle.csp_names.specs.Refusals.{fault_of};

    /// The number of the refusal, as it is printed.
    pub fn number(self) -> &'static str
        ensures { result.now ≡ kind_fault_spelling (fault_of self) }
    {
        match self {
            KindFault::UnknownName => "K01",
            KindFault::DeclaredTwice => "K02",
            KindFault::WrongKind => "K03",
            KindFault::WrongCount => "K04",
            KindFault::BadFieldSet => "K05",
            KindFault::TooManyEvents => "K06",
        }
    }
}

impl fmt::Display for KindFault {
    ghost use Rattle.std.specs.Prelude.{Some};
    ghost use Rattle.theory_checking.specs.Checked.{kind_fault_spelling};
    ghost use Rattle.csp_names.specs.Refusals.{fault_of};

    ghost output = { λ fault. Some (kind_fault_spelling (fault_of fault)) };

    fn fmt<W: fmt::Write>(&self, f: &mut fmt::Formatter<W>) -> fmt::Result {
        f.write_str(self.number())
    }
}

/// Why a tree has no checked script.
#[derive(Clone, Copy, Debug, PartialEq, Eq, Drop, Error)]
pub enum Refused {
    /// The tree is refused, by this fault at this place.
    #[error("{fault} at {place}")]
    Fault { fault: KindFault, place: Place },
    /// There was no room: memory was refused, or a number was too great for what it is kept in. Nothing is said of the
    /// tree.
    #[error("out of memory")]
    Memory,
}

impl Refused {
    ghost use Rattle.csp_names.specs.declared.refusals.Refused.TheVariants.{Fault as refused_by};

    /// The refusal by a fault at a place.
    pub(crate) fn at(fault: KindFault, place: Place) -> Refused
        ensures { result ≡ refused_by fault place }
    {
        Refused::Fault { fault, place }
    }
}

impl From<AllocError> for Refused {
    ghost use Rattle.csp_names.specs.declared.refusals.Refused.TheVariants.{Memory as no_room};

    ghost from_gives = { λ _ refused. refused ≡ no_room };

    fn from(_failed: AllocError) -> Refused {
        Refused::Memory
    }
}

impl<T: Drop> From<AllocFailed<T>> for Refused {
    ghost use Rattle.csp_names.specs.declared.refusals.Refused.TheVariants.{Memory as no_room};

    ghost from_gives = { λ _ refused. refused ≡ no_room };

    fn from(_failed: AllocFailed<T>) -> Refused {
        Refused::Memory
    }
}

impl From<Memory> for Refused {
    ghost use Rattle.csp_names.specs.declared.refusals.Refused.TheVariants.{Memory as no_room};

    ghost from_gives = { λ _ refused. refused ≡ no_room };

    fn from(_refused: Memory) -> Refused {
        Refused::Memory
    }
}
