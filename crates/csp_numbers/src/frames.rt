//! What stands round a process, by numbers.

ghost use Rattle.std.specs.Prelude.{◌≡◌};
ghost use Rattle.theory_shapes.specs.Alphabet.{alphabet as events_of_script};
ghost use Rattle.csp_events.specs.Events.{event_set_of, renaming_pairs_of};
ghost use Rattle.theory_shapes.specs.Shape.{Hidden, Renamed};
ghost use Rattle.csp_term.specs.Script.{script_of_parts};
ghost use Rattle.csp_numbers.specs.Operators.{AnswersFrame};

use crate::alphabet::Alphabet;
use crate::bits::bits_of;
use crate::images::images_of;
use csp_events::{EventSet, RenamingPair};
use csp_expression::NoValue;
use csp_rows::Frame;
use csp_term::{AllocHandle, ScriptParts};

/// The frame that hides the events of a set, or the first cause for which that has no value.
pub fn hidden<A: AllocHandle>(
    alloc: A,
    alphabet: &Alphabet<A>,
    script: &ScriptParts<A>,
    set: &EventSet<A>,
) -> Result<Frame<A>, NoValue>
    ensures { AnswersFrame alphabet.now (script_of_parts script.now) (Hidden (event_set_of set.now))
        result }
{
    let test = script.event_test(alloc, set)?;
    Ok(Frame::Hidden(bits_of(alloc, alphabet, &test)?))
}

/// The frame that renames events by pairs, or the first cause for which these make nothing of events.
pub fn renamed<A: AllocHandle>(
    alloc: A,
    alphabet: &Alphabet<A>,
    script: &ScriptParts<A>,
    pairs: &[RenamingPair<A>],
) -> Result<Frame<A>, NoValue>
    requires { alphabet.now ≡ events_of_script (script_of_parts script.now) }
    ensures { AnswersFrame alphabet.now (script_of_parts script.now)
        (Renamed (renaming_pairs_of pairs.now)) result }
{
    let images = images_of(alloc, alphabet, script, pairs)?;
    Ok(Frame::Renamed(images))
}
