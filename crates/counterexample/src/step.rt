//! Lines of steps.

ghost use Rattle.std.specs.Prelude.{option_map};
ghost use Rattle.csp_value.specs.Action.{action_of};
ghost use Rattle.csp_moves.specs.Origin.{origin_of};
ghost use Rattle.theory_explanation.specs.Legend.{legend};
ghost use Rattle.theory_explanation.specs.Steps.{step_line};
ghost use Rattle.csp_print.specs.Names.{names_of};
ghost use Rattle.csp_print.specs.Writing.{Writes};
ghost use Rattle.counterexample.specs.Folding.{equations_listed};
ghost use Rattle.counterexample.specs.PartNames.{part_names_listed};

use crate::actions::push_action;
use crate::folding::push_then;
use crate::legend::Legend;
use crate::marks::{push_mark, push_number};
use crate::origin_text::push_source;
use crate::part_names::PartName;
use csp_moves::Origin;
use csp_print::Names;
use csp_term::{Action, AllocHandle, EquationId};
use std::alloc::AllocError;

/// A step of a run.
#[derive(Clone, Copy, Drop)]
pub struct Step<'r, A: AllocHandle> {
    /// The number of the state that it leads to.
    pub number: usize,
    /// What is done.
    pub action: &'r Action<A>,
    /// Where that comes from, if it is known.
    pub origin: &'r Option<Origin<A>>,
    /// The equations whose names are unfolded behind it, and told with it.
    pub equations: &'r [EquationId],
}

/// The number of the step, its action, where that comes from, by the names of the parts, and the names that are unfolded
/// behind it.
pub fn push_step<A: AllocHandle>(
    alloc: A,
    names: &Names<'_, A>,
    parts: &[PartName<A>],
    step: &Step<'_, A>,
    text: &mut String<A>,
) -> Result<(), AllocError>
    ensures { Writes result text.old text.new
        (step_line (legend (names_of names.now) (part_names_listed parts.now)) step.now.number
        (action_of step.now.action.now) (option_map origin_of step.now.origin.now)
        (equations_listed step.now.equations.now)) }
{
    push_mark("  ", text)?;
    push_number(step.number, text)?;
    push_mark(" ", text)?;
    push_action(names, step.action, text)?;
    let legend = Legend {
        names,
        parts,
        way: &[],
    };
    push_source(alloc, &legend, step.action, step.origin, text)?;
    push_then(names, step.equations, text)?;
    push_mark("\n", text)
}
