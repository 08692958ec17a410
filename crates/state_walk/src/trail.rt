//! The way from the start to where a walk is.

ghost use Rattle.std.specs.Prelude.{◌≡◌, IfOk, [], map};
ghost use Rattle.theory_explanation.specs.PartNames.{names_along};
ghost use Rattle.theory_walk.specs.Trails.{behind};
ghost use Rattle.csp_term.specs.Term.{process_of};
ghost use Rattle.counterexample.specs.PartNames.{part_names_listed};
ghost use Rattle.state_walk.specs.Walks.{moves_listed, origin_in};

use crate::menu::Move;
use counterexample::{PartName, put_unfolded};
use csp_term::{AllocHandle, Term};
use std::alloc::AllocError;

/// The state that the moves lead to from the start.
pub(crate) fn behind<'t, A: AllocHandle>(start: &'t Term<A>, taken: &'t [Move<A>]) -> &'t Term<A>
    ensures { process_of result.now ≡ behind (process_of start.now) (moves_listed taken.now) }
{
    match taken.split_last() {
        Some((last, _)) => &last.target,
        None => start,
    }
}

/// The names that parts have behind the moves.
pub(crate) fn part_names<A: AllocHandle>(
    alloc: A,
    taken: &[Move<A>],
) -> Result<Vec<PartName<A>, A>, AllocError>
    ensures { IfOk result (λ parts. part_names_listed parts.items
        ≡ names_along [] (map origin_in taken.now)) }
{
    let mut parts = Vec::new(alloc);
    for one in taken {
        put_unfolded(alloc, &one.origin, &mut parts)?;
    }
    Ok(parts)
}
