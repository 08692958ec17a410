//! How what a state offers is shown.

ghost use Rattle.std.specs.Prelude.{◌≡◌};
ghost use Rattle.theory_explanation.specs.Legend.{legend};
ghost use Rattle.theory_walk.specs.Moves.{Offers};
ghost use Rattle.theory_walk.specs.Views.{has_ended, idle_line, menu_lines, move_lines, stuck_line};
ghost use Rattle.theory_runs.specs.Stuck.{ByCause};
ghost use Rattle.csp_expression.specs.Fault.{cause_of};
ghost use Rattle.csp_term.specs.Term.{process_of};
ghost use Rattle.csp_print.specs.Names.{names_of};
ghost use Rattle.csp_print.specs.Writing.{Writes};
ghost use Rattle.csp_replay.specs.Hindrance.{hindrance_of};
ghost use Rattle.counterexample.specs.PartNames.{part_names_listed};
ghost use Rattle.state_walk.specs.Walks.{menu_of, moves_listed};

use crate::menu::{Menu, Move};
use counterexample::{PartName, Step, push_mark, push_step};
use csp_print::Names;
use csp_replay::Hindrance;
use csp_term::{AllocHandle, Fault, Term};
use std::alloc::{AllocError, Allocator};

/// What the state offers, behind the string, where parts have such names.
pub(crate) fn push_menu<A: AllocHandle>(
    alloc: A,
    names: &Names<'_, A>,
    parts: &[PartName<A>],
    state: &Term<A>,
    menu: &Menu<A>,
    text: &mut String<A>,
) -> Result<(), AllocError>
    ensures { Writes result text.old text.new
        (menu_lines (legend (names_of names.now) (part_names_listed parts.now))
        (process_of state.now) (menu_of menu.now)) }
{
    match menu {
        Menu::Offers(moves) => push_offers(alloc, names, parts, state, moves, text),
        Menu::Stuck(by) => push_stuck(*by, text),
    }
}

// The moves, or that there is none.
fn push_offers<A: AllocHandle>(
    alloc: A,
    names: &Names<'_, A>,
    parts: &[PartName<A>],
    state: &Term<A>,
    moves: &[Move<A>],
    text: &mut String<A>,
) -> Result<(), AllocError>
    ensures { Writes result text.old text.new
        (menu_lines (legend (names_of names.now) (part_names_listed parts.now))
        (process_of state.now) (Offers (moves_listed moves.now))) }
{
    if moves.is_empty() {
        return push_mark(idle_line(state), text);
    }
    push_moves(alloc, names, parts, moves, text)
}

// What is told of a state without a move.
fn idle_line<A: AllocHandle>(state: &Term<A>) -> &'static str
    ensures { result.now ≡ idle_line (has_ended (process_of state.now)) }
{
    if state.is_omega() {
        "  no step: it has ended\n"
    } else {
        "  no step\n"
    }
}

// A line for each move, numbered from 1 on.
fn push_moves<A: AllocHandle>(
    alloc: A,
    names: &Names<'_, A>,
    parts: &[PartName<A>],
    moves: &[Move<A>],
    text: &mut String<A>,
) -> Result<(), AllocError>
    ensures { Writes result text.old text.new
        (move_lines (legend (names_of names.now) (part_names_listed parts.now)) 1
        (moves_listed moves.now)) }
{
    for (place, offered) in moves.iter().enumerate() {
        let step = Step {
            number: place + 1,
            action: &offered.action,
            origin: &offered.origin,
            equations: &[],
        };
        push_step(alloc, names, parts, &step, text)?;
    }
    Ok(())
}

// What is told of a state that is stuck.
fn push_stuck<A: Allocator>(by: Hindrance, text: &mut String<A>) -> Result<(), AllocError>
    ensures { Writes result text.old text.new (stuck_line (hindrance_of by)) }
{
    match by {
        Hindrance::Fault(fault) => push_fault(fault, text),
        Hindrance::Size => push_mark("  no step: refused term\n", text),
    }
}

fn push_fault<A: Allocator>(fault: Fault, text: &mut String<A>) -> Result<(), AllocError>
    ensures { Writes result text.old text.new (stuck_line (ByCause (cause_of fault))) }
{
    push_mark("  no step: refused fault ", text)?;
    push_mark(fault.word(), text)?;
    push_mark("\n", text)
}
