//! By which names parts are told.

ghost use Rattle.std.specs.Prelude.{map, option_map};
ghost use Rattle.theory_explanation.specs.Legend.{called, name_here, part_text};
ghost use Rattle.csp_moves.specs.Passage.{side_of};
ghost use Rattle.csp_print.specs.Names.{names_of};
ghost use Rattle.csp_print.specs.Writing.{Writes};
ghost use Rattle.counterexample.specs.PartNames.{legend_of};

use crate::marks::push_mark;
use crate::part_names::{PartName, name_of};
use crate::ways::{joined, push_way};
use csp_moves::Side;
use csp_print::Names;
use csp_term::{AllocHandle, EquationId};
use std::alloc::AllocError;

/// By which names what is at the end of a way is told.
#[derive(Clone, Copy, Drop)]
pub(crate) struct Legend<'l, 't, A: AllocHandle> {
    /// The names of the script.
    pub(crate) names: &'l Names<'t, A>,
    /// Those of the parts.
    pub(crate) parts: &'l [PartName<A>],
    /// The way.
    pub(crate) way: &'l [Side],
}

/// A way from where the legend stands, with the name of the part at its end.
pub(crate) fn push_part<A: AllocHandle>(
    alloc: A,
    legend: &Legend<'_, '_, A>,
    way: &[Side],
    text: &mut String<A>,
) -> Result<(), AllocError>
    ensures { Writes result text.old text.new
        (part_text (legend_of legend.now) (map side_of way.now)) }
{
    push_way(way, text)?;
    let whole = joined(alloc, legend.way, way)?;
    push_called(legend.names, name_of(legend.parts, &whole), text)
}

/// The name of the part where the legend stands; the whole is told by none.
pub(crate) fn push_name_here<A: AllocHandle>(
    legend: &Legend<'_, '_, A>,
    text: &mut String<A>,
) -> Result<(), AllocError>
    ensures { Writes result text.old text.new (name_here (legend_of legend.now)) }
{
    if legend.way.is_empty() {
        return Ok(());
    }
    push_called(legend.names, name_of(legend.parts, legend.way), text)
}

// What a part is called, if it has a name.
fn push_called<A: AllocHandle>(
    names: &Names<'_, A>,
    found: Option<EquationId>,
    text: &mut String<A>,
) -> Result<(), AllocError>
    ensures { Writes result text.old text.new
        (called (names_of names.now) (option_map (λ n. n.0) found)) }
{
    let Some(equation) = found else {
        return Ok(());
    };
    push_mark(" (", text)?;
    names.push_equation(equation, text)?;
    push_mark(")", text)
}
