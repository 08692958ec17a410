//! Where steps come from, in words.

ghost use Rattle.std.specs.Prelude.{◌++◌, codes, option_map};
ghost use Rattle.theory_syntax.specs.Value.{Ev, Tau};
ghost use Rattle.theory_origins.specs.Origin.{Below, OnBranch, OnSide};
ghost use Rattle.theory_search.specs.Printing.{name_at};
ghost use Rattle.csp_value.specs.Action.{action_of, event_of};
ghost use Rattle.csp_moves.specs.Origin.{origin_of};
ghost use Rattle.csp_moves.specs.Passage.{passage_of, side_of};
ghost use Rattle.theory_explanation.specs.Actions.{event_text};
ghost use Rattle.theory_origins.specs.Doers.{doers};
ghost use Rattle.theory_explanation.specs.Legend.{name_here, side_text};
ghost use Rattle.theory_explanation.specs.Origins.{doers_text, origin_text, source_text};
ghost use Rattle.csp_print.specs.Names.{names_of};
ghost use Rattle.csp_print.specs.Writing.{Writes};
ghost use Rattle.counterexample.specs.PartNames.{legend_of};

use crate::actions::push_event;
use crate::doers::push_doers;
use crate::legend::{Legend, push_name_here};
use crate::marks::push_mark;
use crate::part_names::PartName;
use crate::ways::{longer, push_side};
use csp_moves::{Origin, Passage, Side};
use csp_print::Names;
use csp_term::{Action, AllocHandle, EquationId, Event};
use std::alloc::AllocError;

/// What stands behind an action: of a tau its origin, and of an event the parts that do it, if they are told.
pub(crate) fn push_source<A: AllocHandle>(
    alloc: A,
    legend: &Legend<'_, '_, A>,
    action: &Action<A>,
    origin: &Option<Origin<A>>,
    text: &mut String<A>,
) -> Result<(), AllocError>
    ensures { Writes result text.old text.new
        (source_text (legend_of legend.now) (action_of action.now)
        (option_map origin_of origin.now)) }
{
    match action {
        Action::Tau => push_source_of_tau(alloc, legend, origin, text),
        Action::Tick => Ok(()),
        Action::Event(event) => push_source_of_event(alloc, legend, event, origin, text),
    }
}

// The parts that do an event, if its origin is told.
fn push_source_of_event<A: AllocHandle>(
    alloc: A,
    legend: &Legend<'_, '_, A>,
    event: &Event<A>,
    origin: &Option<Origin<A>>,
    text: &mut String<A>,
) -> Result<(), AllocError>
    ensures { Writes result text.old text.new
        (source_text (legend_of legend.now) (Ev (event_of event.now))
        (option_map origin_of origin.now)) }
{
    match origin {
        Some(origin) => push_doers(alloc, legend, event, origin, text),
        None => Ok(()),
    }
}

// The origin of a tau, if one is told.
fn push_source_of_tau<A: AllocHandle>(
    alloc: A,
    legend: &Legend<'_, '_, A>,
    origin: &Option<Origin<A>>,
    text: &mut String<A>,
) -> Result<(), AllocError>
    ensures { Writes result text.old text.new
        (source_text (legend_of legend.now) Tau (option_map origin_of origin.now)) }
{
    match origin {
        Some(origin) => push_origin(alloc, legend, ": ", origin, text),
        None => Ok(()),
    }
}

// The sides on the way down to the part that moves, the first behind the mark, and what moves it.
#[cycle(origin)]
fn push_origin<A: AllocHandle>(
    alloc: A,
    legend: &Legend<'_, '_, A>,
    mark: &str,
    origin: &Origin<A>,
    text: &mut String<A>,
) -> Result<(), AllocError>
    ensures { Writes result text.old text.new
        (origin_text (legend_of legend.now) mark.now (origin_of origin.now)) }
{
    match origin {
        Origin::Does(event) => push_seen(legend, event, text),
        Origin::Ends => push_moved(legend, ": ends", text),
        Origin::Unfolds(equation) => push_call(legend.names, *equation, text),
        Origin::Chooses(side) => push_choice(legend, *side, text),
        Origin::Slides => push_moved(legend, ": slides to its right side", text),
        Origin::Below(passage, part) => push_below(alloc, legend, mark, passage, part, text),
        Origin::Together(_, _) => push_moved(legend, ": both sides", text),
    }
}

// What moves, behind the name of the part.
fn push_moved<A: AllocHandle>(
    legend: &Legend<'_, '_, A>,
    what: &str,
    text: &mut String<A>,
) -> Result<(), AllocError>
    ensures { Writes result text.old text.new (name_here (legend_of legend.now) ++ what.now) }
{
    push_name_here(legend, text)?;
    push_mark(what, text)
}

// A call that becomes the body of the equation.
fn push_call<A: AllocHandle>(
    names: &Names<'_, A>,
    equation: EquationId,
    text: &mut String<A>,
) -> Result<(), AllocError>
    ensures { Writes result text.old text.new
        (codes ": unfolds " ++ name_at (names_of names.now).equations equation.0) }
{
    push_mark(": unfolds ", text)?;
    names.push_equation(equation, text)
}

// A choice that becomes the side.
fn push_choice<A: AllocHandle>(
    legend: &Legend<'_, '_, A>,
    side: Side,
    text: &mut String<A>,
) -> Result<(), AllocError>
    ensures { Writes result text.old text.new
        (name_here (legend_of legend.now)
        ++ (codes ": chooses its " ++ (side_text (side_of side) ++ codes " side"))) }
{
    push_name_here(legend, text)?;
    push_mark(": chooses its ", text)?;
    push_side(side, text)?;
    push_mark(" side", text)
}

// An event that is seen.
fn push_seen<A: AllocHandle>(
    legend: &Legend<'_, '_, A>,
    event: &Event<A>,
    text: &mut String<A>,
) -> Result<(), AllocError>
    ensures { Writes result text.old text.new
        (name_here (legend_of legend.now)
        ++ (codes ": " ++ event_text (legend_of legend.now).names (event_of event.now))) }
{
    push_name_here(legend, text)?;
    push_mark(": ", text)?;
    push_event(legend.names, event, text)
}

// The origin of a part's step, below the passage to the part.
#[cycle(origin)]
fn push_below<A: AllocHandle>(
    alloc: A,
    legend: &Legend<'_, '_, A>,
    mark: &str,
    passage: &Passage<A>,
    part: &Origin<A>,
    text: &mut String<A>,
) -> Result<(), AllocError>
    ensures { Writes result text.old text.new
        (origin_text (legend_of legend.now) mark.now
        (Below (passage_of passage.now) (origin_of part.now))) }
{
    match passage {
        Passage::OnSide(side) => push_below_side(alloc, legend, mark, *side, part, text),
        Passage::InBody => push_origin(alloc, legend, mark, part, text),
        Passage::OnBranch(side) => push_below_branch(alloc, legend, mark, *side, part, text),
        Passage::UnderGuard => push_origin(alloc, legend, mark, part, text),
        Passage::InChain => push_origin(alloc, legend, mark, part, text),
        Passage::SideEnds(side) => push_below_side(alloc, legend, mark, *side, part, text),
        Passage::Hides(event) => push_done(alloc, legend, ": hidden ", event, part, text),
        Passage::Renames(_, event) => push_done(alloc, legend, ": ", event, part, text),
    }
}

// The event behind the mark, and which parts do it.
fn push_done<A: AllocHandle>(
    alloc: A,
    legend: &Legend<'_, '_, A>,
    mark: &str,
    event: &Event<A>,
    part: &Origin<A>,
    text: &mut String<A>,
) -> Result<(), AllocError>
    ensures { Writes result text.old text.new
        (name_here (legend_of legend.now)
        ++ (mark.now
        ++ (event_text (legend_of legend.now).names (event_of event.now)
        ++ doers_text (legend_of legend.now) (event_of event.now) (doers (origin_of part.now))))) }
{
    push_name_here(legend, text)?;
    push_mark(mark, text)?;
    push_event(legend.names, event, text)?;
    push_doers(alloc, legend, event, part, text)
}

// The same below a side, which is told.
#[cycle(origin)]
fn push_below_side<A: AllocHandle>(
    alloc: A,
    legend: &Legend<'_, '_, A>,
    mark: &str,
    side: Side,
    part: &Origin<A>,
    text: &mut String<A>,
) -> Result<(), AllocError>
    ensures { Writes result text.old text.new
        (origin_text (legend_of legend.now) mark.now
        (Below (OnSide (side_of side)) (origin_of part.now))) }
{
    push_mark(mark, text)?;
    push_side(side, text)?;
    let way = longer(alloc, legend.way, side)?;
    let there = Legend {
        names: legend.names,
        parts: legend.parts,
        way: &way,
    };
    push_origin(alloc, &there, ".", part, text)
}

// The same within a part, below a side or branch of it, where nothing has a name of its own.
#[cycle(origin)]
fn push_below_branch<A: AllocHandle>(
    alloc: A,
    legend: &Legend<'_, '_, A>,
    mark: &str,
    side: Side,
    part: &Origin<A>,
    text: &mut String<A>,
) -> Result<(), AllocError>
    ensures { Writes result text.old text.new
        (origin_text (legend_of legend.now) mark.now
        (Below (OnBranch (side_of side)) (origin_of part.now))) }
{
    push_mark(mark, text)?;
    push_side(side, text)?;
    let none: Vec<PartName<A>, A> = Vec::new(alloc);
    let within = Legend {
        names: legend.names,
        parts: &none,
        way: legend.way,
    };
    push_origin(alloc, &within, ".", part, text)
}
