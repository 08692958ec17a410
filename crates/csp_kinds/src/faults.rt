//! Faults of declarations.

ghost use Rattle.std.specs.Prelude.{◌≡◌};
ghost use Rattle.std.specs.Option.{option_or};
ghost use Rattle.csp_kinds.specs.Looking.{fault_in};

use csp_lex::Place;
use csp_names::KindFault;

/// A fault, and the place of the token at which it is.
#[derive(Clone, Copy)]
pub(crate) struct SetFault {
    pub(crate) fault: KindFault,
    pub(crate) place: Place,
}

/// The first of two faults, of which the first one comes first if it is there.
pub(crate) fn first_of(fault: Option<SetFault>, other: Option<SetFault>) -> Option<SetFault>
    ensures { fault_in result ≡ option_or (fault_in fault) (fault_in other) }
{
    match fault {
        Some(fault) => Some(fault),
        None => other,
    }
}
