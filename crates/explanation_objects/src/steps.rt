//! The steps of runs, as fields.

ghost use Rattle.std.specs.Prelude.{[], ◌∷◌, codes, map, option_map};
ghost use Rattle.theory_notation.specs.Processes.{process_text};
ghost use Rattle.theory_objects.specs.Accounts.{origin_fields, origin_told, run_fields, step_fields, steps_fields};
ghost use Rattle.theory_objects.specs.Fields.{object_field, text_field};
ghost use Rattle.csp_value.specs.Action.{action_of};
ghost use Rattle.csp_term.specs.Term.{process_of};
ghost use Rattle.csp_moves.specs.Origin.{origin_of};
ghost use Rattle.csp_print.specs.Names.{names_of};
ghost use Rattle.counterexample.specs.Counterexample.{origins_listed};
ghost use Rattle.explanation_objects.specs.Putting.{Puts, PutsTokens, object_tokens, objects_tokens};
ghost use Rattle.explanation_objects.specs.Steps.{step_of, steps_of};

use crate::actions::put_action;
use crate::fields::put_text;
use crate::origins::put_origin;
use csp_moves::Origin;
use csp_print::{Names, push_term};
use csp_term::{Action, AllocHandle, Term};
use json::Writer;
use std::alloc::AllocError;

/// Puts the state at the start of a run, and its steps.
pub(crate) fn put_run<A: AllocHandle>(
    alloc: A,
    names: &Names<'_, A>,
    path: &[Action<A>],
    states: &[Term<A>],
    origins: &[Option<Origin<A>>],
    writer: &mut Writer<A>,
) -> Result<(), AllocError>
    ensures { Puts result writer.old writer.new
        (run_fields (names_of names.now) (map action_of path.now) (map process_of states.now)
        (origins_listed origins.now)) }
{
    match states.split_first() {
        Some((start, behind)) => {
            put_term(alloc, names, "start", start, writer)?;
            put_steps(alloc, names, path, behind, origins, writer)
        }
        None => Ok(()),
    }
}

// The steps by these actions, to these states.
fn put_steps<A: AllocHandle>(
    alloc: A,
    names: &Names<'_, A>,
    path: &[Action<A>],
    states: &[Term<A>],
    origins: &[Option<Origin<A>>],
    writer: &mut Writer<A>,
) -> Result<(), AllocError>
    ensures { Puts result writer.old writer.new
        (steps_fields (names_of names.now) (steps_of path.now states.now origins.now)) }
{
    writer.key("steps")?;
    writer.begin_array()?;
    put_each_step(alloc, names, path, states, origins, writer)?;
    writer.end_array()
}

fn put_each_step<A: AllocHandle>(
    alloc: A,
    names: &Names<'_, A>,
    path: &[Action<A>],
    states: &[Term<A>],
    origins: &[Option<Origin<A>>],
    writer: &mut Writer<A>,
) -> Result<(), AllocError>
    ensures { let steps = steps_of path.now states.now origins.now in
        PutsTokens result writer.old writer.new
        (objects_tokens (map (step_fields (names_of names.now)) steps)) }
{
    for (place, action) in path.iter().enumerate() {
        let next = states.get(place);
        let Some(state) = next else {
            return Ok(());
        };
        let found = origins.get(place);
        let Some(origin) = found else {
            return Ok(());
        };
        put_step(alloc, names, action, state, origin, writer)?;
    }
    Ok(())
}

/// Puts what is done, the state that it leads to, and where it comes from.
pub(crate) fn put_step<A: AllocHandle>(
    alloc: A,
    names: &Names<'_, A>,
    action: &Action<A>,
    state: &Term<A>,
    origin: &Option<Origin<A>>,
    writer: &mut Writer<A>,
) -> Result<(), AllocError>
    ensures { let step = step_of action.now state.now origin.now in
        PutsTokens result writer.old writer.new
        (object_tokens (step_fields (names_of names.now) step)) }
{
    writer.begin_object()?;
    put_action(alloc, names, "action", action, writer)?;
    put_term(alloc, names, "state", state, writer)?;
    put_origin_told(alloc, names, origin, writer)?;
    writer.end_object()
}

// The origin, if it is told.
fn put_origin_told<A: AllocHandle>(
    alloc: A,
    names: &Names<'_, A>,
    origin: &Option<Origin<A>>,
    writer: &mut Writer<A>,
) -> Result<(), AllocError>
    ensures { Puts result writer.old writer.new
        (origin_told (names_of names.now) (option_map origin_of origin.now)) }
{
    match origin {
        Some(origin) => put_origin_object(alloc, names, origin, writer),
        None => Ok(()),
    }
}

fn put_origin_object<A: AllocHandle>(
    alloc: A,
    names: &Names<'_, A>,
    origin: &Origin<A>,
    writer: &mut Writer<A>,
) -> Result<(), AllocError>
    ensures { Puts result writer.old writer.new
        (object_field (codes "origin") (origin_fields (names_of names.now) [] (origin_of origin.now))
        ∷ []) }
{
    writer.key("origin")?;
    writer.begin_object()?;
    put_origin(alloc, names, &[], origin, writer)?;
    writer.end_object()
}

/// Puts a field that is the text of the state.
pub(crate) fn put_term<A: AllocHandle>(
    alloc: A,
    names: &Names<'_, A>,
    name: &str,
    state: &Term<A>,
    writer: &mut Writer<A>,
) -> Result<(), AllocError>
    ensures { let text = process_text (names_of names.now) (process_of state.now) in
        Puts result writer.old writer.new (text_field name.now text ∷ []) }
{
    let mut text = String::new(alloc);
    push_term(names, state, &mut text)?;
    put_text(name, text.as_str(), writer)
}
