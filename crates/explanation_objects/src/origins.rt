//! Where steps come from, as fields.

ghost use Rattle.std.specs.Prelude.{[], ◌∷◌, ◌++◌, codes, map};
ghost use Rattle.theory_search.specs.Printing.{name_at};
ghost use Rattle.theory_origins.specs.Doers.{doers};
ghost use Rattle.theory_origins.specs.Origin.{Below};
ghost use Rattle.theory_explanation.specs.Legend.{side_text};
ghost use Rattle.theory_objects.specs.Accounts.{done_fields, doers_fields, moved_fields, origin_fields};
ghost use Rattle.theory_objects.specs.Fields.{text_field};
ghost use Rattle.csp_value.specs.Action.{event_of};
ghost use Rattle.csp_moves.specs.Origin.{origin_of};
ghost use Rattle.csp_moves.specs.Passage.{passage_of, side_of};
ghost use Rattle.csp_print.specs.Names.{names_of};
ghost use Rattle.explanation_objects.specs.Putting.{Puts};

use crate::doers::{put_doers, put_event};
use crate::fields::put_text;
use crate::ways::{put_way, side_word};
use counterexample::longer;
use csp_moves::{Origin, Passage, Side};
use csp_print::Names;
use csp_term::{AllocHandle, EquationId, Event};
use json::Writer;
use std::alloc::{AllocError, Allocator};

/// Puts the way down to the part that moves, behind this one, and what moves it.
#[cycle(origin)]
pub(crate) fn put_origin<A: AllocHandle>(
    alloc: A,
    names: &Names<'_, A>,
    way: &[Side],
    origin: &Origin<A>,
    writer: &mut Writer<A>,
) -> Result<(), AllocError>
    ensures { Puts result writer.old writer.new
        (origin_fields (names_of names.now) (map side_of way.now) (origin_of origin.now)) }
{
    match origin {
        Origin::Does(event) => put_done(alloc, names, way, "does", event, origin, writer),
        Origin::Ends => put_moved(way, "ends", writer),
        Origin::Unfolds(equation) => put_call(alloc, names, way, *equation, writer),
        Origin::Chooses(side) => put_choice(way, *side, writer),
        Origin::Slides => put_moved(way, "slides", writer),
        Origin::Below(passage, part) => put_below(alloc, names, way, passage, part, writer),
        Origin::Together(_, _) => put_together(alloc, names, way, origin, writer),
    }
}

// The origin of a part's step, below the passage to the part.
#[cycle(origin)]
fn put_below<A: AllocHandle>(
    alloc: A,
    names: &Names<'_, A>,
    way: &[Side],
    passage: &Passage<A>,
    part: &Origin<A>,
    writer: &mut Writer<A>,
) -> Result<(), AllocError>
    ensures { Puts result writer.old writer.new
        (origin_fields (names_of names.now) (map side_of way.now)
        (Below (passage_of passage.now) (origin_of part.now))) }
{
    match passage {
        Passage::OnSide(side) => put_on_side(alloc, names, way, *side, part, writer),
        Passage::InBody => put_origin(alloc, names, way, part, writer),
        Passage::OnBranch(side) => put_on_side(alloc, names, way, *side, part, writer),
        Passage::UnderGuard => put_origin(alloc, names, way, part, writer),
        Passage::InChain => put_origin(alloc, names, way, part, writer),
        Passage::SideEnds(side) => put_on_side(alloc, names, way, *side, part, writer),
        Passage::Hides(event) => put_done(alloc, names, way, "hides", event, part, writer),
        Passage::Renames(_, event) => put_done(alloc, names, way, "renames", event, part, writer),
    }
}

// The same below a side or branch, which is told.
#[cycle(origin)]
fn put_on_side<A: AllocHandle>(
    alloc: A,
    names: &Names<'_, A>,
    way: &[Side],
    side: Side,
    part: &Origin<A>,
    writer: &mut Writer<A>,
) -> Result<(), AllocError>
    ensures { Puts result writer.old writer.new
        (origin_fields (names_of names.now) (map side_of way.now ++ side_of side ∷ [])
        (origin_of part.now)) }
{
    let further = longer(alloc, way, side)?;
    put_origin(alloc, names, &further, part, writer)
}

// The way, and what moves there.
fn put_moved<A: Allocator>(
    way: &[Side],
    kind: &str,
    writer: &mut Writer<A>,
) -> Result<(), AllocError>
    ensures { Puts result writer.old writer.new (moved_fields (map side_of way.now) kind.now) }
{
    put_way(way, writer)?;
    put_text("kind", kind, writer)
}

// A call that becomes the body of the equation.
fn put_call<A: AllocHandle>(
    alloc: A,
    names: &Names<'_, A>,
    way: &[Side],
    equation: EquationId,
    writer: &mut Writer<A>,
) -> Result<(), AllocError>
    ensures { Puts result writer.old writer.new
        (moved_fields (map side_of way.now) (codes "unfolds")
        ++ (text_field (codes "name") (name_at (names_of names.now).equations equation.0) ∷ [])) }
{
    let mut text = String::new(alloc);
    names.push_equation(equation, &mut text)?;
    put_moved(way, "unfolds", writer)?;
    put_text("name", text.as_str(), writer)
}

// A choice that becomes the side.
fn put_choice<A: Allocator>(
    way: &[Side],
    side: Side,
    writer: &mut Writer<A>,
) -> Result<(), AllocError>
    ensures { Puts result writer.old writer.new
        (moved_fields (map side_of way.now) (codes "chooses")
        ++ (text_field (codes "side") (side_text (side_of side)) ∷ [])) }
{
    put_moved(way, "chooses", writer)?;
    put_text("side", side_word(side), writer)
}

// The event, and the parts that do it in a step from the origin.
fn put_done<A: AllocHandle>(
    alloc: A,
    names: &Names<'_, A>,
    way: &[Side],
    kind: &str,
    event: &Event<A>,
    origin: &Origin<A>,
    writer: &mut Writer<A>,
) -> Result<(), AllocError>
    ensures { Puts result writer.old writer.new
        (done_fields (names_of names.now) (map side_of way.now) kind.now (event_of event.now)
        (doers (origin_of origin.now))) }
{
    put_moved(way, kind, writer)?;
    put_event(alloc, names, event, writer)?;
    put_doers(alloc, names, way, origin, writer)
}

// The parts on both sides.
fn put_together<A: AllocHandle>(
    alloc: A,
    names: &Names<'_, A>,
    way: &[Side],
    origin: &Origin<A>,
    writer: &mut Writer<A>,
) -> Result<(), AllocError>
    ensures { Puts result writer.old writer.new
        (moved_fields (map side_of way.now) (codes "together")
        ++ doers_fields (names_of names.now) (map side_of way.now) (doers (origin_of origin.now))) }
{
    put_moved(way, "together", writer)?;
    put_doers(alloc, names, way, origin, writer)
}
