//! What the operators of a term have, by the numbers of events.

ghost use Rattle.std.specs.Prelude.{◌≡◌};
ghost use Rattle.theory_shapes.specs.Alphabet.{alphabet as events_of_script};
ghost use Rattle.csp_term.specs.Script.{script_of_parts};
ghost use Rattle.csp_numbers.specs.Operators.{AnswersFrame, AnswersSides};
ghost use Rattle.csp_numbers.specs.Heads.{composition_of, frame_of};

use crate::alphabet::Alphabet;
use crate::head::{Composition, Frame};
use csp_expression::NoValue;
use csp_rows::SideBits;
use csp_term::{AllocHandle, ScriptParts};

impl<A: AllocHandle> Composition<'_, A> {
    /// The events that each side does alone and those that both do together, or the first cause for which a set has no
    /// value.
    pub(crate) fn bits(
        &self,
        alloc: A,
        alphabet: &Alphabet<A>,
        script: &ScriptParts<A>,
    ) -> Result<SideBits<A>, NoValue>
        ensures { AnswersSides alphabet.now (script_of_parts script.now) (composition_of self.now)
            result }
    {
        match self {
            Composition::Interleaved => Ok(crate::sides::interleaved(alloc, alphabet)?),
            Composition::Generalised(shared) => {
                crate::sides::generalised(alloc, alphabet, script, shared)
            }
            Composition::Alphabetised(own, other) => {
                crate::sides::alphabetised(alloc, alphabet, script, own, other)
            }
        }
    }
}

impl<A: AllocHandle> Frame<'_, A> {
    /// The frame by numbers, or the first cause for which its set or its renaming has no value.
    pub(crate) fn by_numbers(
        &self,
        alloc: A,
        alphabet: &Alphabet<A>,
        script: &ScriptParts<A>,
    ) -> Result<csp_rows::Frame<A>, NoValue>
        requires { alphabet.now ≡ events_of_script (script_of_parts script.now) }
        ensures { AnswersFrame alphabet.now (script_of_parts script.now) (frame_of self.now)
            result }
    {
        match self {
            Frame::Hidden(set) => crate::frames::hidden(alloc, alphabet, script, set),
            Frame::Renamed(pairs) => crate::frames::renamed(alloc, alphabet, script, pairs),
        }
    }
}
