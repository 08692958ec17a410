//! The lines that tell how large a search was, and what it took.

ghost use Rattle.std.specs.Prelude.{◌≡◌, ◌++◌, IfOk, Some};
ghost use Rattle.std.specs.String.{string_bytes};
ghost use Rattle.csp_term.specs.Script.{property_of};
ghost use Rattle.theory_explanation.specs.Counting.{count_text, nodes_text};
ghost use Rattle.csp_print.specs.Writing.{Writes};
ghost use Rattle.explain_program.specs.Telling.{size_text};

use crate::costs::push_cost;
use crate::search_size::SearchSize;
use counterexample::{push_amount, push_mark};
use csp_term::{AllocHandle, Memory, Property};
use std::alloc::AllocError;

/// The text with the lines of the search behind it, if there was one.
pub(crate) fn with_size<A: AllocHandle>(
    property: &Property<A>,
    size: Option<SearchSize>,
    mut text: String<A>,
) -> Result<String<A>, Memory>
    ensures { IfOk result (λ all. string_bytes all
        ≡ string_bytes text ++ size_text (property_of property.now) size) }
{
    match size {
        None => Ok(text),
        Some(size) => {
            push_size(property, size, &mut text)?;
            Ok(text)
        }
    }
}

// The lines of the search.
fn push_size<A: AllocHandle>(
    property: &Property<A>,
    size: SearchSize,
    text: &mut String<A>,
) -> Result<(), AllocError>
    ensures { Writes result text.old text.new
        (size_text (property_of property.now) (Some size)) }
{
    push_count(property, size, text)?;
    push_cost(size.cost, text)
}

// The line of how large the search was.
fn push_count<A: AllocHandle>(
    property: &Property<A>,
    size: SearchSize,
    text: &mut String<A>,
) -> Result<(), AllocError>
    ensures { Writes result text.old text.new
        (count_text (property_of property.now) size.pairs size.nodes) }
{
    push_mark("  ", text)?;
    push_amount(size.pairs, "pair", text)?;
    push_nodes(property, size.nodes, text)?;
    push_mark("\n", text)
}

// The nodes of a specification, where there is one.
fn push_nodes<A: AllocHandle>(
    property: &Property<A>,
    nodes: usize,
    text: &mut String<A>,
) -> Result<(), AllocError>
    ensures { Writes result text.old text.new (nodes_text (property_of property.now) nodes) }
{
    match property {
        Property::Refinement { .. } => {
            push_mark(", ", text)?;
            push_amount(nodes, "node", text)
        }
        Property::DeadlockFree | Property::DivergenceFree => Ok(()),
    }
}
