//! The rows of parts, which are all of one length.

ghost use Rattle.std.specs.Prelude.{◌≡◌, ◌<◌, OnErr, OnOk, length};
ghost use Rattle.kept_parts.specs.Changed.{HasRowMore, HasSameRows, HasShown};

use crate::parts::Parts;
use csp_packed::PackedTerm;
use csp_rows::{Part, PartStep};
use csp_term::{AllocHandle, Memory, Term};

/// One row more, of a part that was not fired. Where there is no room for it all rows stay.
pub(crate) fn add_row<A: AllocHandle>(
    known: &mut Parts<'_, A>,
    packed: PackedTerm<A>,
    term: Term<A>,
    part: Part<A>,
) -> Result<(), Memory>
    ensures added { OnOk result (HasRowMore packed term part known.old known.new) }
    ensures refused { OnErr result (HasSameRows known.old known.new) }
{
    known.terms.reserve(1)?;
    known.parts.reserve(1)?;
    known.fired.reserve(1)?;
    known.spellings.insert(packed)?;
    known.terms.push(term)?;
    known.parts.push(part)?;
    known.fired.push(false)?;
    Ok(())
}

/// Keeps what firing the part at a place has shown.
pub(crate) fn keep_steps<A: AllocHandle>(
    known: &mut Parts<'_, A>,
    place: usize,
    steps: Option<Vec<PartStep, A>>,
)
    requires part { place < length known.old.parts.items }
    requires fired { place < length known.old.fired.items }
    ensures { HasShown place steps known.old known.new }
{
    known.parts[place].steps = steps;
    known.fired[place] = true;
}
