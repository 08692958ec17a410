//! The line that tells what a search took.

ghost use Rattle.std.specs.Prelude.{None, Some};
ghost use Rattle.csp_print.specs.Writing.{Writes};
ghost use Rattle.explain_program.specs.Costs.{amounts_text, cost_text, memory_text, time_text};

use counterexample::{push_amount, push_mark};
use std::alloc::{AllocError, Allocator};
use watch::Cost;

// How many kilobytes a megabyte has.
const MEGABYTE: u64 = 1024;

/// Puts the line behind the text, if something is known.
pub(crate) fn push_cost<A: Allocator>(cost: Cost, text: &mut String<A>) -> Result<(), AllocError>
    ensures { Writes result text.old text.new (cost_text cost) }
{
    match cost.milliseconds {
        Some(milliseconds) => push_timed(milliseconds, cost.kilobytes, text),
        None => push_untimed(cost.kilobytes, text),
    }
}

fn push_timed<A: Allocator>(
    milliseconds: u64,
    kilobytes: Option<u64>,
    text: &mut String<A>,
) -> Result<(), AllocError>
    ensures { Writes result text.old text.new (amounts_text (Some milliseconds) kilobytes) }
{
    match kilobytes {
        Some(kilobytes) => push_both(milliseconds, kilobytes, text),
        None => push_time_alone(milliseconds, text),
    }
}

fn push_untimed<A: Allocator>(
    kilobytes: Option<u64>,
    text: &mut String<A>,
) -> Result<(), AllocError>
    ensures { Writes result text.old text.new (amounts_text None kilobytes) }
{
    match kilobytes {
        Some(kilobytes) => push_memory_alone(kilobytes, text),
        None => Ok(()),
    }
}

fn push_both<A: Allocator>(
    milliseconds: u64,
    kilobytes: u64,
    text: &mut String<A>,
) -> Result<(), AllocError>
    ensures { Writes result text.old text.new (amounts_text (Some milliseconds) (Some kilobytes)) }
{
    push_mark("  ", text)?;
    push_time(milliseconds, text)?;
    push_mark(", ", text)?;
    push_memory(kilobytes, text)?;
    push_mark("\n", text)
}

fn push_time_alone<A: Allocator>(milliseconds: u64, text: &mut String<A>) -> Result<(), AllocError>
    ensures { Writes result text.old text.new (amounts_text (Some milliseconds) None) }
{
    push_mark("  ", text)?;
    push_time(milliseconds, text)?;
    push_mark("\n", text)
}

fn push_memory_alone<A: Allocator>(kilobytes: u64, text: &mut String<A>) -> Result<(), AllocError>
    ensures { Writes result text.old text.new (amounts_text None (Some kilobytes)) }
{
    push_mark("  ", text)?;
    push_memory(kilobytes, text)?;
    push_mark("\n", text)
}

fn push_time<A: Allocator>(milliseconds: u64, text: &mut String<A>) -> Result<(), AllocError>
    ensures { Writes result text.old text.new (time_text milliseconds) }
{
    push_amount(milliseconds as usize, "millisecond", text)
}

// Whole megabytes, of which the last one may be begun.
fn push_memory<A: Allocator>(kilobytes: u64, text: &mut String<A>) -> Result<(), AllocError>
    ensures { Writes result text.old text.new (memory_text kilobytes) }
{
    push_amount(kilobytes.div_ceil(MEGABYTE) as usize, "megabyte", text)?;
    push_mark(" at most", text)
}
