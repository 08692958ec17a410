//! States of implementations, each on a line of its own.

ghost use Rattle.std.specs.Prelude.{◌≡◌, IfOk};
ghost use Rattle.std.specs.String.{string_bytes};
ghost use Rattle.csp_term.specs.Term.{process_of};
ghost use Rattle.theory_notation.specs.Processes.{process_text};
ghost use Rattle.theory_explanation.specs.Cutting.{cut, cut_after};
ghost use Rattle.theory_explanation.specs.Changing.{change_text};
ghost use Rattle.theory_explanation.specs.Steps.{behind_line, state_line, told_behind};
ghost use Rattle.csp_print.specs.Names.{names_of};
ghost use Rattle.csp_print.specs.Writing.{Writes};
ghost use Rattle.counterexample.specs.Widths.{width_of};

use crate::changes::push_change;
use crate::marks::push_mark;
use crate::width::{Width, push_beginning, push_cut};
use csp_print::{Names, push_term};
use csp_term::{AllocHandle, Term};
use std::alloc::AllocError;

/// The line of the state, behind the string.
pub fn push_state<A: AllocHandle>(
    alloc: A,
    names: &Names<'_, A>,
    width: Width,
    state: &Term<A>,
    text: &mut String<A>,
) -> Result<(), AllocError>
    ensures { Writes result text.old text.new
        (state_line (cut (width_of width)
        (process_text (names_of names.now) (process_of state.now)))) }
{
    let whole = term_text(alloc, names, state)?;
    push_mark("      ", text)?;
    push_cut(alloc, width, whole.as_str(), text)?;
    push_mark("\n", text)
}

/// The line of a state that comes behind another one, behind the string.
pub(crate) fn push_behind<A: AllocHandle>(
    alloc: A,
    names: &Names<'_, A>,
    width: Width,
    before: &Term<A>,
    state: &Term<A>,
    text: &mut String<A>,
) -> Result<(), AllocError>
    ensures { Writes result text.old text.new
        (behind_line (names_of names.now) (width_of width) (process_of before.now)
        (process_of state.now)) }
{
    let old = term_text(alloc, names, before)?;
    let new = term_text(alloc, names, state)?;
    push_mark("      ", text)?;
    push_told(alloc, width, old.as_str(), new.as_str(), text)?;
    push_mark("\n", text)
}

// What is told of the text of a state behind that of another one: all, or as much as is told of what has changed.
fn push_told<A: AllocHandle>(
    alloc: A,
    width: Width,
    old: &str,
    new: &str,
    text: &mut String<A>,
) -> Result<(), AllocError>
    ensures { Writes result text.old text.new (told_behind (width_of width) old.now new.now) }
{
    match width {
        Width::Whole => push_mark(new, text),
        Width::UpTo(most) => push_change_up_to(alloc, most, old, new, text),
    }
}

// So many characters of what has changed.
fn push_change_up_to<A: AllocHandle>(
    alloc: A,
    most: usize,
    old: &str,
    new: &str,
    text: &mut String<A>,
) -> Result<(), AllocError>
    ensures { Writes result text.old text.new (cut_after most (change_text old.now new.now)) }
{
    let mut change = String::new(alloc);
    push_change(alloc, old, new, &mut change)?;
    push_beginning(alloc, most, change.as_str(), text)
}

// The text of the term, alone.
fn term_text<A: AllocHandle>(
    alloc: A,
    names: &Names<'_, A>,
    term: &Term<A>,
) -> Result<String<A>, AllocError>
    ensures { IfOk result (λ text. string_bytes text
        ≡ process_text (names_of names.now) (process_of term.now)) }
{
    let mut text = String::new(alloc);
    push_term(names, term, &mut text)?;
    Ok(text)
}
