//! Terms found as rows of known parts.

ghost use Rattle.std.specs.Prelude.{◌≡◌, IfOk, IfSome, IsTrue};
ghost use Rattle.theory_semantics.specs.Kinds.Scripts.{IsTermOf};
ghost use Rattle.theory_semantics.specs.Meaning.Limits.{fits};
ghost use Rattle.theory_spelling.specs.Spellable.{IsSpellable};
ghost use Rattle.theory_shapes.specs.Parts.{parts_of as parts_of_process};
ghost use Rattle.csp_packed.specs.Packed.{packed_process};
ghost use Rattle.kept_parts.specs.KnownSteps.{processes_of};
ghost use Rattle.csp_term.specs.Script.{script_of};
ghost use Rattle.csp_term.specs.Term.{process_of};
ghost use Rattle.kept_parts.specs.Known.{AreKnownOf, IsFound, IsRowOf};
ghost use Rattle.kept_parts.specs.Rows.{AreNumbersOf};

use crate::known_parts::KnownParts;
use crate::last_shape::LastShape;
use crate::numbering::number_all;
use crate::tally::Tally;
use crate::tried::Tried;
use csp_numbers::{own_size_of, parts_of, places_of};
use csp_packed::PackedTerm;
use csp_rows::{PartId, SplitRow};
use csp_spell::{UnpackFault, unpack};
use csp_term::{AllocHandle, Memory, Script, Term};

/// A term as it is to be fired.
#[derive(Drop)]
pub(crate) enum Found<A: AllocHandle> {
    /// By its parts in the last shape.
    Row(SplitRow<A>),
    /// As a whole.
    Whole(Term<A>),
}

/// The term that is packed.
fn unpacked<A: AllocHandle>(alloc: A, packed: &PackedTerm<A>) -> Result<Term<A>, Memory>
    ensures same { IfOk result (λ term. process_of term ≡ packed_process packed.now) }
    ensures spellable { IfOk result (λ term. IsSpellable (process_of term)) }
    ensures within { IsTrue (fits (packed_process packed.now)) }
{
    match unpack(alloc, packed.bytes()) {
        Ok(term) => Ok(term),
        Err(UnpackFault::Memory) => Err(Memory),
        Err(UnpackFault::NotATerm) => unreachable!(),
    }
}

impl<'s, A: AllocHandle> KnownParts<'s, A> {
    /// The term as a row of known parts, or as a whole. It may be taken apart for that, and is
    /// counted then.
    pub(crate) fn find(
        &mut self,
        alloc: A,
        script: &Script<A>,
        tally: &mut Tally,
        packed: &PackedTerm<A>,
    ) -> Result<Found<A>, Memory>
        requires known { AreKnownOf (script_of script.now) self.old }
        requires closed { IsTermOf (script_of script.now) (packed_process packed.now) }
        ensures known { AreKnownOf (script_of script.now) self.new }
        ensures found { IfOk result (IsFound self.new (packed_process packed.now)) }
    {
        if let Some(row) = self.look_up(alloc, packed, &Tried::new(alloc))? {
            return Ok(Found::Row(row));
        }
        tally.add_tree();
        let term = unpacked(alloc, packed)?;
        match self.take_apart(alloc, script, packed, &term)? {
            Some(row) => Ok(Found::Row(row)),
            None => Ok(Found::Whole(term)),
        }
    }

    /// The row of the term by its parts, which are numbered. `None` where it is its own part, or a set or a renaming of
    /// its operators has no value.
    fn take_apart(
        &mut self,
        alloc: A,
        script: &Script<A>,
        packed: &PackedTerm<A>,
        term: &Term<A>,
    ) -> Result<Option<SplitRow<A>>, Memory>
        requires known { AreKnownOf (script_of script.now) self.old }
        requires same { process_of term.now ≡ packed_process packed.now }
        requires closed { IsTermOf (script_of script.now) (process_of term.now) }
        requires within { IsTrue (fits (process_of term.now)) }
        requires spellable { IsSpellable (process_of term.now) }
        ensures known { AreKnownOf (script_of script.now) self.new }
        ensures row { IfOk result (λ found. IfSome found (IsRowOf self.new (process_of term.now))) }
    {
        if own_size_of(term) == 0 {
            return Ok(None);
        }
        let parts = parts_of(alloc, term)?;
        let numbers = number_all(&mut self.parts, alloc, &parts)?;
        let only = Tried::of_row(alloc, &numbers)?;
        match self.look_up(alloc, packed, &only)? {
            Some(row) => {
                self.tried.add_row(&row.numbers)?;
                Ok(Some(row))
            }
            None => self.keep_shape(alloc, script, term, numbers),
        }
    }

    /// The row of these parts of the term, whose shape is kept as the last one; `None` where a set or a renaming of it
    /// has no value.
    fn keep_shape(
        &mut self,
        alloc: A,
        script: &Script<A>,
        term: &Term<A>,
        numbers: Vec<PartId, A>,
    ) -> Result<Option<SplitRow<A>>, Memory>
        requires known { AreKnownOf (script_of script.now) self.old }
        requires within { IsTrue (fits (process_of term.now)) }
        requires spellable { IsSpellable (process_of term.now) }
        requires numbers { AreNumbersOf (processes_of self.old.parts)
            (parts_of_process (process_of term.now)) numbers.items }
        ensures known { AreKnownOf (script_of script.now) self.new }
        ensures row { IfOk result (λ found. IfSome found (IsRowOf self.new (process_of term.now))) }
    {
        match LastShape::of(alloc, &self.alphabet, script, term)? {
            Some(shape) => {
                let places = places_of(alloc, term)?;
                let tried = Tried::of_row(alloc, &numbers)?;
                self.turn_to_new(shape, tried)?;
                Ok(Some(SplitRow { numbers, places }))
            }
            None => Ok(None),
        }
    }
}
