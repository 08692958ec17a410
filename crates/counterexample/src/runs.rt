//! Runs of violations.

ghost use Rattle.std.specs.Prelude.{[], map};
ghost use Rattle.csp_term.specs.Term.{process_of};
ghost use Rattle.verdict.specs.Outcome.{violation_of};
ghost use Rattle.theory_explanation.specs.Steps.{run_text};
ghost use Rattle.csp_print.specs.Writing.{Writes};
ghost use Rattle.csp_replay.specs.Along.{states_listed};
ghost use Rattle.counterexample.specs.Counterexample.{origins_listed};
ghost use Rattle.counterexample.specs.Styles.{style_of};

use crate::ends::push_end;
use crate::paths::push_path_beside;
use crate::run::Run;
use crate::style::Style;
use csp_term::{AllocHandle, Term};
use std::alloc::AllocError;
use verdict::Shown;

/// The run by the violation's path, with what a specification has along it, and what is wrong at its end, behind the
/// string. Of a specification that is not to be told the list is empty.
pub(crate) fn push_run<A: AllocHandle>(
    alloc: A,
    style: &Style<'_, '_, A>,
    shown: &Shown<A>,
    run: &Run<'_, A>,
    along: &[Vec<Term<A>, A>],
    text: &mut String<A>,
) -> Result<(), AllocError>
    ensures { Writes result text.old text.new
        (run_text (style_of style.now) (violation_of shown.now) (map process_of run.now.states.now)
        (origins_listed run.now.origins.now) (states_listed along.now)) }
{
    push_path_beside(alloc, style, &shown.path, run, along, text)?;
    push_end(style.names, &shown.evidence, text)
}

/// The same of a run alone, without what a specification has along it.
pub(crate) fn push_run_alone<A: AllocHandle>(
    alloc: A,
    style: &Style<'_, '_, A>,
    shown: &Shown<A>,
    run: &Run<'_, A>,
    text: &mut String<A>,
) -> Result<(), AllocError>
    ensures { Writes result text.old text.new
        (run_text (style_of style.now) (violation_of shown.now) (map process_of run.now.states.now)
        (origins_listed run.now.origins.now) []) }
{
    let none: Vec<Vec<Term<A>, A>, A> = Vec::new(alloc);
    push_run(alloc, style, shown, run, &none, text)
}
