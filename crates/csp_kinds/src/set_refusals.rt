//! Where the second pass is refused for a set.

ghost use Rattle.csp_kinds.specs.Refusals.{PassesSets};

use crate::sets::RefusedSet;
use csp_names::Refused;

/// The refusal of the declaration with this number, if it is the first one that is refused for a set, or for a name in
/// one.
pub(crate) fn pass_sets(refused: Option<RefusedSet>, declaration: usize) -> Result<(), Refused>
    ensures { PassesSets refused declaration result }
{
    match refused {
        Some(set) if set.declaration == declaration => Err(Refused::Fault {
            fault: set.fault,
            place: set.place,
        }),
        _ => Ok(()),
    }
}
