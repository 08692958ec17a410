//! States of specifications, each on a line of its own.

ghost use Rattle.std.specs.Prelude.{◌≡◌, map, take};
ghost use Rattle.csp_term.specs.Term.{process_of};
ghost use Rattle.theory_explanation.specs.Counterparts.{more_line, specification_line, specification_lines, specification_text};
ghost use Rattle.csp_print.specs.Names.{names_of};
ghost use Rattle.csp_print.specs.Writing.{Writes};
ghost use Rattle.counterexample.specs.Widths.{width_of};

use crate::marks::{push_mark, push_number};
use crate::style::Style;
use crate::width::push_cut;
use csp_print::push_term;
use csp_term::{AllocHandle, Term};
use std::alloc::AllocError;

/// The first few of the specification's states, and how many more there are, behind the string.
pub(crate) fn push_specification<A: AllocHandle>(
    alloc: A,
    style: &Style<'_, '_, A>,
    states: &[Term<A>],
    text: &mut String<A>,
) -> Result<(), AllocError>
    ensures { Writes result text.old text.new
        (specification_text (names_of style.now.names.now) (width_of style.now.width) style.now.few
        (map process_of states.now)) }
{
    let first = first_few(states, style.few);
    push_lines(alloc, style, first, text)?;
    push_more(style.few, states.len(), text)
}

/// The first few of the states, or all.
pub(crate) fn first_few<A: AllocHandle>(states: &[Term<A>], few: usize) -> &[Term<A>]
    ensures { result.now ≡ take few states.now }
{
    if few < states.len() {
        &states[..few]
    } else {
        states
    }
}

// The states, each on a line of its own.
fn push_lines<A: AllocHandle>(
    alloc: A,
    style: &Style<'_, '_, A>,
    states: &[Term<A>],
    text: &mut String<A>,
) -> Result<(), AllocError>
    ensures { Writes result text.old text.new
        (specification_lines (names_of style.now.names.now) (width_of style.now.width)
        (map process_of states.now)) }
{
    for state in states {
        push_line(alloc, style, state, text)?;
    }
    Ok(())
}

// The line of the state.
fn push_line<A: AllocHandle>(
    alloc: A,
    style: &Style<'_, '_, A>,
    state: &Term<A>,
    text: &mut String<A>,
) -> Result<(), AllocError>
    ensures { Writes result text.old text.new
        (specification_line (names_of style.now.names.now) (width_of style.now.width)
        (process_of state.now)) }
{
    let mut whole = String::new(alloc);
    push_term(style.names, state, &mut whole)?;
    push_mark("      specification: ", text)?;
    push_cut(alloc, style.width, whole.as_str(), text)?;
    push_mark("\n", text)
}

// How many of so many states are not among the first few, if any are.
fn push_more<A: AllocHandle>(few: usize, all: usize, text: &mut String<A>) -> Result<(), AllocError>
    ensures { Writes result text.old text.new (more_line few all) }
{
    if all <= few {
        return Ok(());
    }
    push_mark("      specification: and ", text)?;
    push_number(all - few, text)?;
    push_mark(" more\n", text)
}
