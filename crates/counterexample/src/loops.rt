//! The loop of a divergence.

ghost use Rattle.std.specs.Prelude.{◌≡◌, ◌<◌, ◌^◌, [], length, map, option_map, Some};
ghost use Rattle.theory_explanation.specs.Loops.{back_text, left_out_line, loop_text, taus_told};
ghost use Rattle.theory_explanation.specs.PartNames.{names_along};
ghost use Rattle.theory_explanation.specs.Steps.{state_line};
ghost use Rattle.csp_term.specs.Term.{process_of};
ghost use Rattle.csp_print.specs.Writing.{Writes};
ghost use Rattle.counterexample.specs.Counterexample.{loop_of, origins_listed};
ghost use Rattle.counterexample.specs.Loops.{next_text};
ghost use Rattle.counterexample.specs.Styles.{style_of};
ghost use Rattle.counterexample.specs.Widths.{width_of};

use crate::looping::Looping;
use crate::marks::{push_amount, push_mark, push_number};
use crate::part_names::{names_along, put_unfolded};
use crate::states::push_behind;
use crate::step::{Step, push_step};
use crate::style::Style;
use crate::width::Width;
use csp_moves::Origin;
use csp_term::{Action, AllocHandle, Term};
use std::alloc::AllocError;

/// The taus of the loop that begins at the state with the number, behind steps with these origins.
pub(crate) fn push_loop<A: AllocHandle>(
    alloc: A,
    style: &Style<'_, '_, A>,
    before: &[Option<Origin<A>>],
    number: usize,
    looping: &Looping<A>,
    text: &mut String<A>,
) -> Result<(), AllocError>
    requires room { number < 2 ^ 63 }
    requires back { looping.now.back < length looping.now.states.items }
    ensures { Writes result text.old text.new
        (loop_text (style_of style.now) (names_along [] (origins_listed before.now)) number
        (Some (loop_of looping.now))) }
{
    let count = looping.states.len();
    let told = taus_told(style.taus, &looping.states);
    let back = number + looping.back;
    let mut parts = names_along(alloc, before)?;
    for place in 0..count {
        let found = looping.origins.get(place);
        let Some(origin) = found else {
            return Ok(());
        };
        if place == told {
            return push_left_out(count - place, back, text);
        }
        let tau = Action::Tau;
        let step = Step {
            number: number + 1 + place,
            action: &tau,
            origin,
            equations: &[],
        };
        push_step(alloc, style.names, &parts, &step, text)?;
        let next = looping.states.get(place + 1);
        push_next(alloc, style, &looping.states[place], next, back, text)?;
        put_unfolded(alloc, origin, &mut parts)?;
    }
    Ok(())
}

// What a tau leads to from the state: the next one, if there is one, or back.
fn push_next<A: AllocHandle>(
    alloc: A,
    style: &Style<'_, '_, A>,
    state: &Term<A>,
    next: Option<&Term<A>>,
    back: usize,
    text: &mut String<A>,
) -> Result<(), AllocError>
    ensures { Writes result text.old text.new
        (next_text (style_of style.now) back (process_of state.now)
        (option_map (λ t. process_of t.now) next.entry)) }
{
    match next {
        Some(next) => push_behind(alloc, style.names, style.width, state, next, text),
        None => push_back(back, text),
    }
}

// How many of the taus are told.
fn taus_told<A: AllocHandle>(width: Width, states: &[Term<A>]) -> usize
    ensures { result ≡ taus_told (width_of width) (map process_of states.now) }
{
    match width {
        Width::Whole => states.len(),
        Width::UpTo(most) => most,
    }
}

// The state that the last tau leads back to, on a line of its own.
fn push_back<A: AllocHandle>(back: usize, text: &mut String<A>) -> Result<(), AllocError>
    ensures { Writes result text.old text.new (state_line (back_text back)) }
{
    push_mark("      ", text)?;
    push_back_to(back, text)?;
    push_mark("\n", text)
}

fn push_back_to<A: AllocHandle>(back: usize, text: &mut String<A>) -> Result<(), AllocError>
    ensures { Writes result text.old text.new (back_text back) }
{
    push_mark("back to state ", text)?;
    push_number(back, text)
}

// How many taus are left out.
fn push_left_out<A: AllocHandle>(
    taus: usize,
    back: usize,
    text: &mut String<A>,
) -> Result<(), AllocError>
    ensures { Writes result text.old text.new (left_out_line taus back) }
{
    push_mark("  .. ", text)?;
    push_amount(taus, "more tau", text)?;
    push_mark(", ", text)?;
    push_back_to(back, text)?;
    push_mark("\n", text)
}
