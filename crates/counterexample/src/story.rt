//! Runs as they are told.

ghost use Rattle.std.specs.Prelude.{◌≡◌, drop, length, map};
ghost use Rattle.csp_value.specs.Action.{action_of};
ghost use Rattle.csp_term.specs.Term.{process_of};
ghost use Rattle.theory_explanation.specs.Steps.{beside_text, first_text, start_line, width_before};
ghost use Rattle.csp_print.specs.Writing.{Writes};
ghost use Rattle.csp_replay.specs.Along.{states_listed};
ghost use Rattle.counterexample.specs.Stories.{states_of, steps_of, story_of};
ghost use Rattle.counterexample.specs.Folding.{equations_listed};
ghost use Rattle.counterexample.specs.Styles.{style_of};
ghost use Rattle.counterexample.specs.Widths.{width_of};

use crate::events::{push_events, push_last};
use crate::folding::{folded, is_folded, push_then, state_behind};
use crate::marks::push_mark;
use crate::part_names::put_unfolded;
use crate::specification::push_specification;
use crate::states::{push_behind, push_state};
use crate::step::{Step, push_step};
use crate::style::Style;
use crate::telling::Telling;
use crate::width::Width;
use csp_moves::Origin;
use csp_term::{Action, AllocHandle, EquationId, Term};
use std::alloc::AllocError;

/// A run of a side, and what a specification has along it.
#[derive(Clone, Copy, Drop)]
pub(crate) struct Story<'r, A: AllocHandle> {
    /// The actions of its steps.
    pub(crate) path: &'r [Action<A>],
    /// The state at its start.
    pub(crate) start: &'r Term<A>,
    /// The states that its steps lead to.
    pub(crate) states: &'r [Term<A>],
    /// The origins of its steps, where they are known.
    pub(crate) origins: &'r [Option<Origin<A>>],
    /// The states of a specification at the start and behind each step; none where none are to be told.
    pub(crate) along: &'r [Vec<Term<A>, A>],
}

/// The states at the start and the steps, behind the string; or the events, and the last state.
pub(crate) fn push_story<A: AllocHandle>(
    alloc: A,
    style: &Style<'_, '_, A>,
    story: &Story<'_, A>,
    text: &mut String<A>,
) -> Result<(), AllocError>
    ensures { Writes result text.old text.new (story_of (style_of style.now) story.now) }
{
    match style.telling {
        Telling::ByEvents => {
            push_events(alloc, style.names, story.path, story.origins, text)?;
            push_last(alloc, style.names, story.start, story.states, text)
        }
        Telling::EachStep => push_states(alloc, style, story, text),
        Telling::Folded => push_states(alloc, style, story, text),
    }
}

// The states at the start, and the steps with those that they lead to.
fn push_states<A: AllocHandle>(
    alloc: A,
    style: &Style<'_, '_, A>,
    story: &Story<'_, A>,
    text: &mut String<A>,
) -> Result<(), AllocError>
    ensures { Writes result text.old text.new (states_of (style_of style.now) story.now) }
{
    let equations = folded(alloc, style.telling, story.origins)?;
    let told = state_behind(equations.len(), story.start, story.states);
    push_start(alloc, style, &equations, told, story.path, text)?;
    push_first(alloc, style, story.along, 0, text)?;
    push_steps(alloc, style, story, told, text)
}

// The names that are unfolded at the start of the path, and the state behind that.
fn push_start<A: AllocHandle>(
    alloc: A,
    style: &Style<'_, '_, A>,
    equations: &[EquationId],
    state: &Term<A>,
    path: &[Action<A>],
    text: &mut String<A>,
) -> Result<(), AllocError>
    ensures { Writes result text.old text.new
        (start_line (style_of style.now) (equations_listed equations.now) (process_of state.now)
        (map action_of path.now)) }
{
    push_mark("  0 start", text)?;
    push_then(style.names, equations, text)?;
    push_mark("\n", text)?;
    let width = width_behind(style.width, path, equations.len());
    push_state(alloc, style.names, width, state, text)
}

// The steps, each with the state that it leads to, behind the one that was told last.
fn push_steps<A: AllocHandle>(
    alloc: A,
    style: &Style<'_, '_, A>,
    story: &Story<'_, A>,
    state: &Term<A>,
    text: &mut String<A>,
) -> Result<(), AllocError>
    ensures { Writes result text.old text.new
        (steps_of (style_of style.now) story.now (process_of state.now)) }
{
    let mut told = state;
    let mut parts = Vec::new(alloc);
    for (place, action) in story.path.iter().enumerate() {
        let next = story.states.get(place);
        let Some(state) = next else {
            return Ok(());
        };
        let found = story.origins.get(place);
        let Some(origin) = found else {
            return Ok(());
        };
        if !is_folded(style.telling, origin) {
            let equations = folded(alloc, style.telling, &story.origins[place + 1..])?;
            let behind = state_behind(equations.len(), state, &story.states[place + 1..]);
            let width = width_behind(style.width, &story.path[place + 1..], equations.len());
            let step = Step {
                number: place + 1,
                action,
                origin,
                equations: &equations,
            };
            push_step(alloc, style.names, &parts, &step, text)?;
            push_behind(alloc, style.names, width, told, behind, text)?;
            push_beside(alloc, style, action, story.along, place + 1, text)?;
            told = behind;
        }
        put_unfolded(alloc, origin, &mut parts)?;
    }
    Ok(())
}

// How much is told of the state behind so many steps of the path: the last one is told whole.
fn width_behind<A: AllocHandle>(width: Width, path: &[Action<A>], count: usize) -> Width
    ensures { width_of result ≡ width_before (width_of width)
        (drop count (map action_of path.now)) }
{
    if path.len() <= count {
        Width::Whole
    } else {
        width
    }
}

// The states of the specification behind an action, those of the list at the place. Behind a tau it is where it was.
fn push_beside<A: AllocHandle>(
    alloc: A,
    style: &Style<'_, '_, A>,
    action: &Action<A>,
    along: &[Vec<Term<A>, A>],
    place: usize,
    text: &mut String<A>,
) -> Result<(), AllocError>
    ensures { Writes result text.old text.new
        (beside_text (style_of style.now) (action_of action.now)
        (drop place (states_listed along.now))) }
{
    match action {
        Action::Tau => Ok(()),
        Action::Tick => push_first(alloc, style, along, place, text),
        Action::Event(_) => push_first(alloc, style, along, place, text),
    }
}

// The states of the specification in the list at the place, if there is one.
fn push_first<A: AllocHandle>(
    alloc: A,
    style: &Style<'_, '_, A>,
    along: &[Vec<Term<A>, A>],
    place: usize,
    text: &mut String<A>,
) -> Result<(), AllocError>
    ensures { Writes result text.old text.new
        (first_text (style_of style.now) (drop place (states_listed along.now))) }
{
    let found = along.get(place);
    let Some(states) = found else {
        return Ok(());
    };
    push_specification(alloc, style, states, text)
}
