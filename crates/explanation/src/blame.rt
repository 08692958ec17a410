//! What is to blame at the end of a run to a state for which a rule lacks a value.

ghost use Rattle.std.specs.Prelude.{map};
ghost use Rattle.csp_faults.specs.Culprit.{Finds, found_of};
ghost use Rattle.csp_print.specs.Names.{names_of};
ghost use Rattle.csp_print.specs.Writing.{Writes};
ghost use Rattle.csp_term.specs.Script.{script_of};
ghost use Rattle.csp_term.specs.Term.{process_of};
ghost use Rattle.theory_explanation.specs.Culprits.{blame_line, last_culprit};

use crate::culprits::push_culprit;
use counterexample::push_mark;
use csp_faults::{Culprit, culprit_in};
use csp_print::Names;
use csp_term::{AllocHandle, Memory, Script, Term};
use std::alloc::AllocError;

/// A line with what is to blame in the last of the states, behind the string.
pub(crate) fn push_blame<A: AllocHandle>(
    alloc: A,
    names: &Names<'_, A>,
    script: &Script<A>,
    states: &[Term<A>],
    text: &mut String<A>,
) -> Result<(), Memory>
    ensures { Writes result text.old text.new
        (blame_line (names_of names.now)
        (last_culprit (script_of script.now) (map process_of states.now))) }
{
    let found = last_culprit(alloc, script, states)?;
    push_line(names, &found, text)?;
    Ok(())
}

// What is to blame in the last of the states.
fn last_culprit<A: AllocHandle>(
    alloc: A,
    script: &Script<A>,
    states: &[Term<A>],
) -> Result<Option<Culprit<A>>, Memory>
    ensures { Finds result (last_culprit (script_of script.now) (map process_of states.now)) }
{
    match states.last() {
        Some(state) => culprit_in(alloc, script.parts(), state),
        None => Ok(None),
    }
}

// What was found on a line of its own, or what is always true there.
fn push_line<A: AllocHandle>(
    names: &Names<'_, A>,
    found: &Option<Culprit<A>>,
    text: &mut String<A>,
) -> Result<(), AllocError>
    ensures { Writes result text.old text.new
        (blame_line (names_of names.now) (found_of found.now)) }
{
    match found {
        Some(culprit) => {
            push_mark("  there ", text)?;
            push_culprit(names, culprit, text)?;
            push_mark("\n", text)
        }
        None => push_mark("  there a rule lacks a value\n", text),
    }
}
