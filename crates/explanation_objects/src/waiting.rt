//! The parts of states that wait, as fields.

ghost use Rattle.std.specs.Prelude.{map};
ghost use Rattle.theory_objects.specs.Accounts.{part_fields, waiting_fields};
ghost use Rattle.csp_print.specs.Names.{names_of};
ghost use Rattle.counterexample.specs.Counterexample.{waiting_of};
ghost use Rattle.explanation_objects.specs.Putting.{Puts, PutsTokens, object_tokens, objects_tokens};

use crate::actions::put_actions;
use crate::steps::put_term;
use crate::ways::put_way;
use counterexample::Waiting;
use csp_print::Names;
use csp_term::AllocHandle;
use json::Writer;
use std::alloc::AllocError;

/// Puts what each part can do by itself, where there are several.
pub(crate) fn put_waiting<A: AllocHandle>(
    alloc: A,
    names: &Names<'_, A>,
    parts: &[Waiting<A>],
    writer: &mut Writer<A>,
) -> Result<(), AllocError>
    ensures { Puts result writer.old writer.new
        (waiting_fields (names_of names.now) (map waiting_of parts.now)) }
{
    if parts.len() < 2 {
        return Ok(());
    }
    writer.key("waiting")?;
    writer.begin_array()?;
    put_each_part(alloc, names, parts, writer)?;
    writer.end_array()
}

fn put_each_part<A: AllocHandle>(
    alloc: A,
    names: &Names<'_, A>,
    parts: &[Waiting<A>],
    writer: &mut Writer<A>,
) -> Result<(), AllocError>
    ensures { PutsTokens result writer.old writer.new
        (objects_tokens (map (part_fields (names_of names.now)) (map waiting_of parts.now))) }
{
    for part in parts {
        put_part(alloc, names, part, writer)?;
    }
    Ok(())
}

// The part, and all that it can do by itself.
fn put_part<A: AllocHandle>(
    alloc: A,
    names: &Names<'_, A>,
    part: &Waiting<A>,
    writer: &mut Writer<A>,
) -> Result<(), AllocError>
    ensures { PutsTokens result writer.old writer.new
        (object_tokens (part_fields (names_of names.now) (waiting_of part.now))) }
{
    writer.begin_object()?;
    put_way(&part.way, writer)?;
    put_term(alloc, names, "process", &part.process, writer)?;
    put_actions(alloc, names, "initials", &part.initials, writer)?;
    writer.end_object()
}
