//! What is kept of a part before it is fired.

ghost use Rattle.std.specs.Prelude.{◌≡◌, IfOk, None};
ghost use Rattle.csp_spell.specs.WithinLimits.{IsTermWithinLimits};
ghost use Rattle.csp_term.specs.Term.{process_of};
ghost use Rattle.kept_parts.specs.Kept.{IsKeptOf};

use csp_rows::Part;
use csp_spell::pack;
use csp_term::{AllocHandle, Memory, Term, depth_of, size_of};

/// The spelling of a term, with what it measures.
pub(crate) fn part_of<A: AllocHandle>(alloc: A, term: &Term<A>) -> Result<Part<A>, Memory>
    requires { IsTermWithinLimits (process_of term.now) }
    ensures kept { IfOk result (IsKeptOf (process_of term.now)) }
    ensures unfired { IfOk result (λ part. part.steps ≡ None) }
{
    let mut spelling = pack(alloc, term)?;
    spelling.shrink_to_fit();
    let size = size_of(term);
    let depth = depth_of(term);
    let steps = None;
    Ok(Part {
        spelling,
        size,
        depth,
        steps,
    })
}
