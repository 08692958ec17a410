//! The names of parts.

ghost use Rattle.std.specs.Prelude.{◌≡◌, [], IfOk, OnOk, Some, map, not, option_map};
ghost use Rattle.std.specs.List.{filter};
ghost use Rattle.theory_explanation.specs.PartNames.{is_at, name_of, names_along, part_names_behind, unfolded, with_name};
ghost use Rattle.csp_moves.specs.Origin.{origin_of};
ghost use Rattle.csp_moves.specs.Passage.{side_of};
ghost use Rattle.counterexample.specs.Counterexample.{origins_listed};
ghost use Rattle.counterexample.specs.PartNames.{part_name_of, part_names_listed};

use crate::unfolded::unfolded_in;
use crate::ways::same_way;
use csp_moves::{Origin, Side};
use csp_term::{AllocHandle, EquationId};
use std::alloc::AllocError;

/// The equation that was unfolded last at a way.
#[derive(Drop)]
pub struct PartName<A: AllocHandle> {
    /// The sides on the way, from the outermost one on.
    pub way: Vec<Side, A>,
    /// The equation.
    pub equation: EquationId,
}

/// The equation by which the part at the way is told, if there is one.
pub(crate) fn name_of<A: AllocHandle>(parts: &[PartName<A>], way: &[Side]) -> Option<EquationId>
    ensures { option_map (λ n. n.0) result ≡ name_of (part_names_listed parts.now)
        (map side_of way.now) }
{
    for part in parts {
        if same_way(&part.way, way) {
            return Some(part.equation);
        }
    }
    None
}

/// The names behind steps with these origins.
pub(crate) fn names_along<A: AllocHandle>(
    alloc: A,
    origins: &[Option<Origin<A>>],
) -> Result<Vec<PartName<A>, A>, AllocError>
    ensures { IfOk result (λ parts. part_names_listed parts.items
        ≡ names_along [] (origins_listed origins.now)) }
{
    let mut parts = Vec::new(alloc);
    for origin in origins {
        put_unfolded(alloc, origin, &mut parts)?;
    }
    Ok(parts)
}

/// Puts in what a step unfolds, if its origin is told: so the names are those behind it.
pub fn put_unfolded<A: AllocHandle>(
    alloc: A,
    origin: &Option<Origin<A>>,
    parts: &mut Vec<PartName<A>, A>,
) -> Result<(), AllocError>
    ensures { OnOk result (part_names_listed parts.new.items
        ≡ part_names_behind (part_names_listed parts.old.items) (option_map origin_of origin.now)) }
{
    match origin {
        Some(origin) => put_from(alloc, origin, parts),
        None => Ok(()),
    }
}

// The same of an origin that is told.
fn put_from<A: AllocHandle>(
    alloc: A,
    origin: &Origin<A>,
    parts: &mut Vec<PartName<A>, A>,
) -> Result<(), AllocError>
    ensures { OnOk result (part_names_listed parts.new.items
        ≡ with_name (part_names_listed parts.old.items) (unfolded (origin_of origin.now))) }
{
    let found = unfolded_in(alloc, origin)?;
    match found {
        Some(name) => put_name(name, parts),
        None => Ok(()),
    }
}

// Puts the name in place of the one that was told at its way.
fn put_name<A: AllocHandle>(
    name: PartName<A>,
    parts: &mut Vec<PartName<A>, A>,
) -> Result<(), AllocError>
    ensures { OnOk result (part_names_listed parts.new.items
        ≡ with_name (part_names_listed parts.old.items) (Some (part_name_of name))) }
{
    take_out(&name.way, parts);
    parts.push(name)?;
    Ok(())
}

// Takes out the name that was told at the way.
fn take_out<A: AllocHandle>(way: &[Side], parts: &mut Vec<PartName<A>, A>)
    ensures { part_names_listed parts.new.items ≡ filter (λ d. not (is_at (map side_of way.now) d))
        (part_names_listed parts.old.items) }
{
    parts.retain(
        |part: &PartName<A>| -> bool
            ensures { result ≡ not (is_at (map side_of way.entry.now) (part_name_of part.now)) }
        { !same_way(&part.way, way) },
    );
}
