//! Loops, as fields.

ghost use Rattle.std.specs.Prelude.{◌≡◌, ◌<◌, ◌++◌, length, map, option_map, slice_get, take, drop, Some};
ghost use Rattle.theory_objects.specs.Accounts.{loop_fields, step_fields, steps_fields, taus_of};
ghost use Rattle.csp_term.specs.Term.{process_of};
ghost use Rattle.csp_print.specs.Names.{names_of};
ghost use Rattle.counterexample.specs.Counterexample.{loop_of};
ghost use Rattle.explanation_objects.specs.Putting.{Puts, PutsTokens, object_tokens, objects_tokens};
ghost use Rattle.explanation_objects.specs.Steps.{loop_through, tau_to, term_found};

use crate::fields::put_number;
use crate::steps::put_step;
use counterexample::Looping;
use csp_moves::Origin;
use csp_print::Names;
use csp_term::{Action, AllocHandle, Term};
use json::Writer;
use std::alloc::AllocError;

/// Puts the loop, if there is one.
pub(crate) fn put_looping<A: AllocHandle>(
    alloc: A,
    names: &Names<'_, A>,
    looping: &Option<Looping<A>>,
    writer: &mut Writer<A>,
) -> Result<(), AllocError>
    ensures { Puts result writer.old writer.new
        (loop_fields (names_of names.now) (option_map loop_of looping.now)) }
{
    match looping {
        Some(looping) => put_loop(alloc, names, looping, writer),
        None => Ok(()),
    }
}

// The place of the state that the last tau leads back to, and the taus.
fn put_loop<A: AllocHandle>(
    alloc: A,
    names: &Names<'_, A>,
    looping: &Looping<A>,
    writer: &mut Writer<A>,
) -> Result<(), AllocError>
    ensures { Puts result writer.old writer.new
        (loop_fields (names_of names.now) (Some (loop_of looping.now))) }
{
    writer.key("loop")?;
    writer.begin_object()?;
    put_number("back", looping.back as u64, writer)?;
    put_taus(alloc, names, looping, writer)?;
    writer.end_object()
}

fn put_taus<A: AllocHandle>(
    alloc: A,
    names: &Names<'_, A>,
    looping: &Looping<A>,
    writer: &mut Writer<A>,
) -> Result<(), AllocError>
    ensures { Puts result writer.old writer.new
        (steps_fields (names_of names.now) (taus_of (loop_of looping.now))) }
{
    writer.key("steps")?;
    writer.begin_array()?;
    let Looping {
        states,
        back,
        origins,
    } = looping;
    put_each_tau(alloc, names, states, *back, origins, writer)?;
    writer.end_array()
}

fn put_each_tau<A: AllocHandle>(
    alloc: A,
    names: &Names<'_, A>,
    states: &[Term<A>],
    back: usize,
    origins: &[Option<Origin<A>>],
    writer: &mut Writer<A>,
) -> Result<(), AllocError>
    ensures { let taus = taus_of (loop_through states.now back origins.now) in
        PutsTokens result writer.old writer.new
        (objects_tokens (map (step_fields (names_of names.now)) taus)) }
{
    for place in 0..states.len() {
        let next = state_behind(states, place, back);
        let Some(state) = next else {
            return Ok(());
        };
        let found = origins.get(place);
        let Some(origin) = found else {
            return Ok(());
        };
        put_tau(alloc, names, state, origin, writer)?;
    }
    Ok(())
}

// A tau, the state that it leads to, and where it comes from.
fn put_tau<A: AllocHandle>(
    alloc: A,
    names: &Names<'_, A>,
    state: &Term<A>,
    origin: &Option<Origin<A>>,
    writer: &mut Writer<A>,
) -> Result<(), AllocError>
    ensures { PutsTokens result writer.old writer.new
        (object_tokens (step_fields (names_of names.now) (tau_to state.now origin.now))) }
{
    let tau = Action::Tau;
    put_step(alloc, names, &tau, state, origin, writer)
}

// The state that the tau from the one at the place leads to: the next one, or behind the last one that at `back`.
fn state_behind<A: AllocHandle>(states: &[Term<A>], place: usize, back: usize) -> Option<&Term<A>>
    requires { place < length states.now }
    ensures { let all = map process_of states.now in
        term_found result ≡ slice_get (drop 1 all ++ take 1 (drop back all)) place }
{
    match states.get(place + 1) {
        Some(next) => Some(next),
        None => state_at(states, back),
    }
}

// The state at the place, if there is one.
fn state_at<A: AllocHandle>(states: &[Term<A>], place: usize) -> Option<&Term<A>>
    ensures { term_found result ≡ slice_get (map process_of states.now) place }
{
    match states.get(place) {
        Some(state) => Some(state),
        None => None,
    }
}
