//! The texts of runs to states for which there is no answer.

ghost use Rattle.std.specs.Prelude.{◌≡◌, ◌++◌, map, option_map};
ghost use Rattle.theory_syntax.specs.Models.{unfolding_of};
ghost use Rattle.csp_term.specs.Script.{script_of};
ghost use Rattle.csp_term.specs.Term.{process_of};
ghost use Rattle.theory_explanation.specs.Faults as faults;
ghost use Rattle.csp_print.specs.Names.{names_of};
ghost use Rattle.csp_print.specs.Writing.{Writes};
ghost use Rattle.counterexample.specs.Styles.{style_of};
ghost use Rattle.csp_replay.specs.Hindrance.{hindrance_of};
ghost use Rattle.explanation.specs.Sides.{side_run_of, stuck_text, told_text};

use crate::blame::push_blame;
use crate::sides::SideRun;
use crate::told_run::ToldRun;
use counterexample::{Run, Style, push_mark, push_path};
use csp_print::Names;
use csp_replay::Hindrance;
use csp_term::{AllocHandle, Memory, Script, Term, Unfolding};

/// The run of a side to a state that is stuck by this, or that the specification has too many states for one.
pub(crate) fn push_found<A: AllocHandle>(
    alloc: A,
    style: &Style<'_, '_, A>,
    script: &Script<A>,
    hindrance: Hindrance,
    found: &Option<SideRun<A>>,
    text: &mut String<A>,
) -> Result<(), Memory>
    ensures { Writes result text.old text.new
        (faults.found_text (style_of style.now) (script_of script.now) (hindrance_of hindrance)
        (option_map side_run_of found.now)) }
{
    match found {
        Some(told) => push_side_run(alloc, style, script, hindrance, told, text),
        None => push_sentence(
            "  the specification comes there, and has too many states to tell how\n",
            text,
        ),
    }
}

/// The sentence, behind the string.
pub(crate) fn push_sentence<A: AllocHandle>(
    sentence: &str,
    text: &mut String<A>,
) -> Result<(), Memory>
    ensures { Writes result text.old text.new sentence.now }
{
    push_mark(sentence, text)?;
    Ok(())
}

// The side, its run state by state, and what is wrong at the end.
fn push_side_run<A: AllocHandle>(
    alloc: A,
    style: &Style<'_, '_, A>,
    script: &Script<A>,
    hindrance: Hindrance,
    run: &SideRun<A>,
    text: &mut String<A>,
) -> Result<(), Memory>
    ensures { Writes result text.old text.new
        (faults.fault_run_text (style_of style.now) (script_of script.now) (hindrance_of hindrance)
        (side_run_of run.now)) }
{
    match run {
        SideRun::Implementation(told) => {
            push_mark("  the implementation comes there by\n", text)?;
            push_run(alloc, style, script, hindrance, told, text)
        }
        SideRun::Specification(told) => {
            push_mark("  the specification comes there by\n", text)?;
            push_run(alloc, style, script, hindrance, told, text)
        }
    }
}

// The run state by state, and what is wrong at the end.
fn push_run<A: AllocHandle>(
    alloc: A,
    style: &Style<'_, '_, A>,
    script: &Script<A>,
    hindrance: Hindrance,
    told: &ToldRun<A>,
    text: &mut String<A>,
) -> Result<(), Memory>
    ensures { Writes result text.old text.new
        (told_text (style_of style.now) told.now
        ++ stuck_text (style_of style.now) (script_of script.now) (hindrance_of hindrance)
        told.now) }
{
    let run = Run {
        states: &told.run.states,
        origins: &told.origins,
    };
    push_path(alloc, style, &told.run.path, &run, text)?;
    push_stuck(
        alloc,
        style.names,
        script,
        hindrance,
        &told.run.states,
        text,
    )
}

// What the last state of the run is stuck by.
fn push_stuck<A: AllocHandle>(
    alloc: A,
    names: &Names<'_, A>,
    script: &Script<A>,
    hindrance: Hindrance,
    states: &[Term<A>],
    text: &mut String<A>,
) -> Result<(), Memory>
    ensures { Writes result text.old text.new
        (faults.stuck_line (names_of names.now) (script_of script.now) (hindrance_of hindrance)
        (map process_of states.now)) }
{
    match hindrance {
        Hindrance::Fault(_) => push_blame(alloc, names, script, states, text),
        Hindrance::Size => {
            push_mark(size_line(script.parts().unfolds), text)?;
            Ok(())
        }
    }
}

// That the last state is too large, or what a step leads to, as names are read.
fn size_line(unfolds: Unfolding) -> &'static str
    ensures { result.now ≡ faults.size_line (unfolding_of unfolds) }
{
    match unfolds {
        Unfolding::ByTau => "  there it is too large, or what a step leads to\n",
        Unfolding::AtOnce =>
            "  there it is too large, or what a step leads to, with its names unfolded\n",
    }
}
