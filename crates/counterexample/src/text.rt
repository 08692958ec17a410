//! Counterexamples.

ghost use Rattle.std.specs.Prelude.{◌<◌, ◌^◌, [], map, option_map, Some};
ghost use Rattle.csp_term.specs.Term.{process_of};
ghost use Rattle.verdict.specs.Outcome.{violation_of};
ghost use Rattle.theory_explanation.specs.Comparing.{counterexample_text, text_beside};
ghost use Rattle.theory_explanation.specs.Loops.{loop_text};
ghost use Rattle.theory_explanation.specs.PartNames.{names_along};
ghost use Rattle.csp_print.specs.Writing.{Writes};
ghost use Rattle.counterexample.specs.Counterexample.{GoesRound, counterexample_of, counterpart_of, loop_of, origins_listed};
ghost use Rattle.counterexample.specs.Styles.{sides_text, style_of};

use crate::counterexamples::Counterexample;
use crate::counterparts::Counterpart;
use crate::lacks::push_lack;
use crate::looping::Looping;
use crate::loops::push_loop;
use crate::marks::push_mark;
use crate::run::Run;
use crate::runs::{push_run, push_run_alone};
use crate::style::Style;
use crate::waiting_text::push_parts;
use csp_moves::Origin;
use csp_term::{AllocHandle, Memory};
use std::alloc::AllocError;
use verdict::Shown;

/// The counterexample of the violation, behind the string: the run of the implementation, state by state, with the states
/// of the specification beside it, what is wrong at its end, and what the specification has there; and the loop that it
/// ends in, or the parts that wait there.
pub fn push_counterexample<A: AllocHandle>(
    alloc: A,
    style: &Style<'_, '_, A>,
    shown: &Shown<A>,
    counterexample: &Counterexample<A>,
    text: &mut String<A>,
) -> Result<(), Memory>
    requires round { GoesRound counterexample.now.looping }
    ensures { Writes result text.old text.new
        (counterexample_text (style_of style.now) (violation_of shown.now)
        (counterexample_of counterexample.now)) }
{
    push_sides(alloc, style, shown, counterexample, text)?;
    let origins = &counterexample.origins;
    push_looping(
        alloc,
        style,
        origins,
        shown.path.len(),
        &counterexample.looping,
        text,
    )?;
    push_parts(alloc, style, origins, &counterexample.waiting, text)?;
    Ok(())
}

// The loop that begins at the state with the number, behind steps with these origins, if there is one.
fn push_looping<A: AllocHandle>(
    alloc: A,
    style: &Style<'_, '_, A>,
    origins: &[Option<Origin<A>>],
    number: usize,
    looping: &Option<Looping<A>>,
    text: &mut String<A>,
) -> Result<(), AllocError>
    requires room { number < 2 ^ 63 }
    requires round { GoesRound looping.now }
    ensures { Writes result text.old text.new
        (loop_text (style_of style.now) (names_along [] (origins_listed origins.now)) number
        (option_map loop_of looping.now)) }
{
    match looping {
        Some(looping) => push_loop(alloc, style, origins, number, looping, text),
        None => Ok(()),
    }
}

// The run of the implementation, alone or beside what the specification has along it.
fn push_sides<A: AllocHandle>(
    alloc: A,
    style: &Style<'_, '_, A>,
    shown: &Shown<A>,
    counterexample: &Counterexample<A>,
    text: &mut String<A>,
) -> Result<(), Memory>
    ensures { Writes result text.old text.new
        (sides_text (style_of style.now) (violation_of shown.now)
        (counterexample_of counterexample.now)) }
{
    let run = Run {
        states: &counterexample.states,
        origins: &counterexample.origins,
    };
    match &counterexample.counterpart {
        Some(counterpart) => push_beside(alloc, style, shown, &run, counterpart, text),
        None => {
            push_run_alone(alloc, style, shown, &run, text)?;
            Ok(())
        }
    }
}

// The run beside what the specification has along it.
fn push_beside<A: AllocHandle>(
    alloc: A,
    style: &Style<'_, '_, A>,
    shown: &Shown<A>,
    run: &Run<'_, A>,
    counterpart: &Counterpart<A>,
    text: &mut String<A>,
) -> Result<(), Memory>
    ensures { Writes result text.old text.new
        (text_beside (style_of style.now) (violation_of shown.now)
        (map process_of run.now.states.now) (origins_listed run.now.origins.now)
        (Some (counterpart_of counterpart.now))) }
{
    match counterpart {
        Counterpart::Along {
            states: along,
            initials,
            acceptances,
        } => {
            push_run(alloc, style, shown, run, along, text)?;
            push_lack(
                alloc,
                style.names,
                &shown.evidence,
                initials,
                acceptances,
                text,
            )
        }
        Counterpart::TooManyStates => {
            push_run_alone(alloc, style, shown, run, text)?;
            push_mark(
                "  along this path the specification has too many states to tell\n",
                text,
            )?;
            Ok(())
        }
    }
}
