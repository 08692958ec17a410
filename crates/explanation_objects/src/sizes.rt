//! How large searches are, and what they took, as fields.

ghost use Rattle.csp_term.specs.Script.{property_of};
ghost use Rattle.theory_objects.specs.Answers.{cost_fields, known_fields, size_fields};
ghost use Rattle.explanation_objects.specs.Answers.{sizes_told};
ghost use Rattle.explanation_objects.specs.Putting.{Puts};

use crate::fields::put_number;
use csp_term::{AllocHandle, Property};
use json::Writer;
use std::alloc::{AllocError, Allocator};
use watch::Cost;

/// How large a search is, and what it took.
#[derive(Clone, Copy, Debug, PartialEq, Eq)]
pub struct Size {
    /// The pairs that it keeps.
    pub pairs: usize,
    /// The nodes of the specification's normal form, where there is a specification.
    pub nodes: usize,
    /// What it took.
    pub cost: Cost,
}

/// Puts the size, if it is told.
pub(crate) fn put_size<A: AllocHandle>(
    property: &Property<A>,
    size: Option<Size>,
    writer: &mut Writer<A>,
) -> Result<(), AllocError>
    ensures { Puts result writer.old writer.new (sizes_told (property_of property.now) size) }
{
    match size {
        Some(size) => {
            put_known(property, size, writer)?;
            put_cost(size.cost, writer)
        }
        None => Ok(()),
    }
}

fn put_known<A: AllocHandle>(
    property: &Property<A>,
    size: Size,
    writer: &mut Writer<A>,
) -> Result<(), AllocError>
    ensures { Puts result writer.old writer.new
        (size_fields (property_of property.now) size.pairs size.nodes) }
{
    match property {
        Property::Refinement { .. } => {
            put_number("pairs", size.pairs as u64, writer)?;
            put_number("nodes", size.nodes as u64, writer)
        }
        Property::DeadlockFree | Property::DivergenceFree => {
            put_number("pairs", size.pairs as u64, writer)
        }
    }
}

// What was taken, as far as it is known.
fn put_cost<A: Allocator>(cost: Cost, writer: &mut Writer<A>) -> Result<(), AllocError>
    ensures { Puts result writer.old writer.new (cost_fields cost.milliseconds cost.kilobytes) }
{
    put_if_known("milliseconds", cost.milliseconds, writer)?;
    put_if_known("kilobytes", cost.kilobytes, writer)
}

fn put_if_known<A: Allocator>(
    name: &str,
    number: Option<u64>,
    writer: &mut Writer<A>,
) -> Result<(), AllocError>
    ensures { Puts result writer.old writer.new (known_fields name.now number) }
{
    match number {
        Some(number) => put_number(name, number, writer),
        None => Ok(()),
    }
}
