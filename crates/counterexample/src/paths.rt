//! Paths, as they are to be told.

ghost use Rattle.std.specs.Prelude.{[], map};
ghost use Rattle.csp_value.specs.Action.{action_of};
ghost use Rattle.csp_term.specs.Term.{process_of};
ghost use Rattle.theory_explanation.specs.Steps.{path_text};
ghost use Rattle.csp_print.specs.Writing.{Writes};
ghost use Rattle.csp_replay.specs.Along.{states_listed};
ghost use Rattle.counterexample.specs.Counterexample.{origins_listed};
ghost use Rattle.counterexample.specs.Styles.{style_of};

use crate::run::Run;
use crate::story::{Story, push_story};
use crate::style::Style;
use csp_term::{Action, AllocHandle, Term};
use std::alloc::AllocError;

/// The run by the path as it is to be told, behind the string: the state at the start, and the steps, with where they come
/// from and the states behind them; or the events, and the last state.
pub fn push_path<A: AllocHandle>(
    alloc: A,
    style: &Style<'_, '_, A>,
    path: &[Action<A>],
    run: &Run<'_, A>,
    text: &mut String<A>,
) -> Result<(), AllocError>
    ensures { Writes result text.old text.new
        (path_text (style_of style.now) (map action_of path.now) (map process_of run.now.states.now)
        (origins_listed run.now.origins.now) []) }
{
    let none: Vec<Vec<Term<A>, A>, A> = Vec::new(alloc);
    push_path_beside(alloc, style, path, run, &none, text)
}

/// The same, with the states of a specification along it.
pub(crate) fn push_path_beside<A: AllocHandle>(
    alloc: A,
    style: &Style<'_, '_, A>,
    path: &[Action<A>],
    run: &Run<'_, A>,
    along: &[Vec<Term<A>, A>],
    text: &mut String<A>,
) -> Result<(), AllocError>
    ensures { Writes result text.old text.new
        (path_text (style_of style.now) (map action_of path.now) (map process_of run.now.states.now)
        (origins_listed run.now.origins.now) (states_listed along.now)) }
{
    let Some((start, states)) = run.states.split_first() else {
        return Ok(());
    };
    let story = Story {
        path,
        start,
        states,
        origins: run.origins,
        along,
    };
    push_story(alloc, style, &story, text)
}
