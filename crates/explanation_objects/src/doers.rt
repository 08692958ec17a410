//! The parts that do events, as fields.

ghost use Rattle.std.specs.Prelude.{[], ◌∷◌, codes, map};
ghost use Rattle.theory_origins.specs.Doers.{doers};
ghost use Rattle.theory_explanation.specs.Actions.{event_text};
ghost use Rattle.theory_objects.specs.Accounts.{doer_fields, doers_fields};
ghost use Rattle.theory_objects.specs.Fields.{text_field};
ghost use Rattle.csp_value.specs.Action.{event_of};
ghost use Rattle.csp_moves.specs.Origin.{origin_of};
ghost use Rattle.csp_moves.specs.Passage.{side_of};
ghost use Rattle.csp_print.specs.Names.{names_of};
ghost use Rattle.counterexample.specs.Doers.{doer_of, doers_listed};
ghost use Rattle.explanation_objects.specs.Putting.{Puts, PutsTokens, object_tokens, objects_tokens};

use crate::fields::put_text;
use crate::ways::put_way;
use counterexample::{Doer, doers_in, push_event};
use csp_moves::{Origin, Side};
use csp_print::Names;
use csp_term::{AllocHandle, Event};
use json::Writer;
use std::alloc::AllocError;

/// Puts a field that is the parts below the way that do an event in a step from the origin.
pub(crate) fn put_doers<A: AllocHandle>(
    alloc: A,
    names: &Names<'_, A>,
    way: &[Side],
    origin: &Origin<A>,
    writer: &mut Writer<A>,
) -> Result<(), AllocError>
    ensures { let parts = doers (origin_of origin.now) in
        Puts result writer.old writer.new
        (doers_fields (names_of names.now) (map side_of way.now) parts) }
{
    let all = doers_in(alloc, way, origin)?;
    writer.key("parts")?;
    writer.begin_array()?;
    put_each_doer(alloc, names, &all, writer)?;
    writer.end_array()
}

fn put_each_doer<A: AllocHandle>(
    alloc: A,
    names: &Names<'_, A>,
    parts: &[Doer<'_, A>],
    writer: &mut Writer<A>,
) -> Result<(), AllocError>
    ensures { PutsTokens result writer.old writer.new
        (objects_tokens (map (doer_fields (names_of names.now) []) (doers_listed parts.now))) }
{
    for part in parts {
        put_doer(alloc, names, part, writer)?;
    }
    Ok(())
}

// The part, with the event that it is there.
fn put_doer<A: AllocHandle>(
    alloc: A,
    names: &Names<'_, A>,
    part: &Doer<'_, A>,
    writer: &mut Writer<A>,
) -> Result<(), AllocError>
    ensures { PutsTokens result writer.old writer.new
        (object_tokens (doer_fields (names_of names.now) [] (doer_of part.now))) }
{
    writer.begin_object()?;
    put_way(&part.way, writer)?;
    put_event(alloc, names, part.event, writer)?;
    writer.end_object()
}

/// Puts a field that is the text of the event.
pub(crate) fn put_event<A: AllocHandle>(
    alloc: A,
    names: &Names<'_, A>,
    event: &Event<A>,
    writer: &mut Writer<A>,
) -> Result<(), AllocError>
    ensures { let text = event_text (names_of names.now) (event_of event.now) in
        Puts result writer.old writer.new (text_field (codes "event") text ∷ []) }
{
    let mut text = String::new(alloc);
    push_event(names, event, &mut text)?;
    put_text("event", text.as_str(), writer)
}
