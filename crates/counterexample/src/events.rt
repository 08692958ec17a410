//! Runs by their events.

ghost use Rattle.std.specs.Prelude.{◌≡◌, [], map, option_map};
ghost use Rattle.csp_value.specs.Action.{action_of};
ghost use Rattle.csp_term.specs.Term.{process_of};
ghost use Rattle.csp_moves.specs.Origin.{origin_of};
ghost use Rattle.theory_explanation.specs.Folding.{hides, is_event};
ghost use Rattle.theory_explanation.specs.Steps.{events_text, last_line};
ghost use Rattle.csp_print.specs.Names.{names_of};
ghost use Rattle.csp_print.specs.Writing.{Writes};
ghost use Rattle.counterexample.specs.Counterexample.{origins_listed};
ghost use Rattle.counterexample.specs.Folding.{kind_of};

use crate::folding::state_behind;
use crate::kind::{Kind, kind_told};
use crate::part_names::put_unfolded;
use crate::states::push_state;
use crate::step::{Step, push_step};
use crate::width::Width;
use csp_moves::Origin;
use csp_print::Names;
use csp_term::{Action, AllocHandle, Term};
use std::alloc::AllocError;

/// The steps that are events, seen or hidden.
pub(crate) fn push_events<A: AllocHandle>(
    alloc: A,
    names: &Names<'_, A>,
    path: &[Action<A>],
    origins: &[Option<Origin<A>>],
    text: &mut String<A>,
) -> Result<(), AllocError>
    ensures { Writes result text.old text.new
        (events_text (names_of names.now) 1 [] (map action_of path.now)
        (origins_listed origins.now)) }
{
    let mut parts = Vec::new(alloc);
    for (place, action) in path.iter().enumerate() {
        let told = origins.get(place);
        let Some(origin) = told else {
            return Ok(());
        };
        if is_event(action, origin) {
            let step = Step {
                number: place + 1,
                action,
                origin,
                equations: &[],
            };
            push_step(alloc, names, &parts, &step, text)?;
        }
        put_unfolded(alloc, origin, &mut parts)?;
    }
    Ok(())
}

// Whether the step is an event, seen or hidden, or the end.
fn is_event<A: AllocHandle>(action: &Action<A>, origin: &Option<Origin<A>>) -> bool
    ensures { result ≡ is_event (action_of action.now) (option_map origin_of origin.now) }
{
    match action {
        Action::Tau => hides(kind_told(origin)),
        Action::Tick | Action::Event(_) => true,
    }
}

fn hides(kind: Kind) -> bool
    ensures { result ≡ hides (kind_of kind) }
{
    match kind {
        Kind::Hiding => true,
        Kind::Unfolding(_) | Kind::Other => false,
    }
}

/// The last of the states, from this one on, whole.
pub(crate) fn push_last<A: AllocHandle>(
    alloc: A,
    names: &Names<'_, A>,
    state: &Term<A>,
    states: &[Term<A>],
    text: &mut String<A>,
) -> Result<(), AllocError>
    ensures { Writes result text.old text.new
        (last_line (names_of names.now) (process_of state.now) (map process_of states.now)) }
{
    let last = state_behind(states.len(), state, states);
    push_state(alloc, names, Width::Whole, last, text)
}
