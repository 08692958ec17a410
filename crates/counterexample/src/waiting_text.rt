//! The parts of a state that waits.

ghost use Rattle.std.specs.Prelude.{[], map};
ghost use Rattle.theory_explanation.specs.PartNames.{names_along};
ghost use Rattle.theory_explanation.specs.Waiting.{all_waiting, parts_text, waiting_text};
ghost use Rattle.csp_print.specs.Writing.{Writes};
ghost use Rattle.counterexample.specs.Counterexample.{origins_listed, waiting_of};
ghost use Rattle.counterexample.specs.PartNames.{part_names_listed};
ghost use Rattle.counterexample.specs.Styles.{style_of};

use crate::lacks::push_set;
use crate::legend::{Legend, push_part};
use crate::marks::push_mark;
use crate::part_names::{PartName, names_along};
use crate::states::push_state;
use crate::style::Style;
use crate::waiting::Waiting;
use csp_moves::Origin;
use csp_term::AllocHandle;
use std::alloc::AllocError;

/// What each part can do by itself, behind steps with these origins, where there are several.
pub(crate) fn push_parts<A: AllocHandle>(
    alloc: A,
    style: &Style<'_, '_, A>,
    origins: &[Option<Origin<A>>],
    waiting: &[Waiting<A>],
    text: &mut String<A>,
) -> Result<(), AllocError>
    ensures { Writes result text.old text.new
        (parts_text (style_of style.now) (names_along [] (origins_listed origins.now))
        (map waiting_of waiting.now)) }
{
    if waiting.len() < 2 {
        return Ok(());
    }
    let parts = names_along(alloc, origins)?;
    push_all_waiting(alloc, style, &parts, waiting, text)
}

fn push_all_waiting<A: AllocHandle>(
    alloc: A,
    style: &Style<'_, '_, A>,
    parts: &[PartName<A>],
    waiting: &[Waiting<A>],
    text: &mut String<A>,
) -> Result<(), AllocError>
    ensures { Writes result text.old text.new
        (all_waiting (style_of style.now) (part_names_listed parts.now)
        (map waiting_of waiting.now)) }
{
    for part in waiting {
        push_waiting(alloc, style, parts, part, text)?;
    }
    Ok(())
}

// What the part can do, and what it is.
fn push_waiting<A: AllocHandle>(
    alloc: A,
    style: &Style<'_, '_, A>,
    parts: &[PartName<A>],
    part: &Waiting<A>,
    text: &mut String<A>,
) -> Result<(), AllocError>
    ensures { Writes result text.old text.new
        (waiting_text (style_of style.now) (part_names_listed parts.now) (waiting_of part.now)) }
{
    push_mark("  by itself ", text)?;
    let legend = Legend {
        names: style.names,
        parts,
        way: &[],
    };
    push_part(alloc, &legend, &part.way, text)?;
    push_mark(" can do ", text)?;
    push_set(style.names, &part.initials, text)?;
    push_mark("\n", text)?;
    push_state(alloc, style.names, style.width, &part.process, text)
}
