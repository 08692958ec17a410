//! The shape of a term that was taken apart.

ghost use Rattle.std.specs.Prelude.{◌≡◌, IfOk, IsTrue};
ghost use Rattle.theory_shapes.specs.Alphabet.{alphabet as events_of_script};
ghost use Rattle.theory_semantics.specs.Meaning.Limits.{fits};
ghost use Rattle.theory_spelling.specs.Spellable.{IsSpellable};
ghost use Rattle.csp_term.specs.Script.{script_of};
ghost use Rattle.csp_term.specs.Term.{process_of};
ghost use Rattle.kept_parts.specs.Known.{IsShapeAnswered};

use csp_numbers::{Alphabet, MeasuredShape, pieces_of, shape_of};
use csp_term::{AllocHandle, Memory, Script, Term, TryCopy};

/// The shape of a term, with what tells its rows.
#[derive(Drop)]
pub(crate) struct LastShape<A: AllocHandle> {
    /// The term.
    pub(crate) term: Term<A>,
    /// Its shape by numbers, with what it measures.
    pub(crate) measured: MeasuredShape<A>,
    /// The bytes before, between and behind its parts.
    pub(crate) pieces: Vec<Vec<u8, A>, A>,
}

impl<A: AllocHandle> LastShape<A> {
    /// The shape of a term of the script within the limits, `None` where a set or a renaming of it has no value.
    pub(crate) fn of(
        alloc: A,
        alphabet: &Alphabet<A>,
        script: &Script<A>,
        term: &Term<A>,
    ) -> Result<Option<LastShape<A>>, Memory>
        requires whole { alphabet.now ≡ events_of_script (script_of script.now) }
        requires within { IsTrue (fits (process_of term.now)) }
        requires spellable { IsSpellable (process_of term.now) }
        ensures { IfOk result (IsShapeAnswered (script_of script.now) (process_of term.now)) }
    {
        match shape_of(alloc, alphabet, script, term)? {
            Some(measured) => {
                let pieces = pieces_of(alloc, term)?;
                let term = term.try_copy(alloc)?;
                Ok(Some(LastShape {
                    term,
                    measured,
                    pieces,
                }))
            }
            None => Ok(None),
        }
    }
}
