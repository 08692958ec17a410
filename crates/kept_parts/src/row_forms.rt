//! What firing shows of rows of known parts.

ghost use Rattle.std.specs.Prelude.{◌≡◌, IfOk, IfSome};
ghost use Rattle.theory_semantics.specs.Kinds.Scripts.{IsTermOf};
ghost use Rattle.csp_packed.specs.Packed.{packed_process};
ghost use Rattle.kept_parts.specs.KnownSteps.{script_in};
ghost use Rattle.kept_parts.specs.Serving.{AreRowFired};
ghost use Rattle.csp_term.specs.Script.{script_of};
ghost use Rattle.kept_parts.specs.Forms.{IsPackedFormOf};
ghost use Rattle.kept_parts.specs.Known.{AreKnownOf, IsRowOf};

use crate::by_process::ByProcess;
use crate::known_parts::KnownParts;
use crate::nodes::nodes_of;
use crate::numbering::fire_all;
use crate::packing::packed_form;
use crate::tally::Tally;
use crate::whole::expand_whole;
use csp_packed::{KeptTerm, PackedExpansion, PackedForm, PackedTerm};
use csp_rows::{RowByNumbers, SplitRow, fire_row};
use csp_term::{AllocHandle, Memory, Script, TryCopy};

impl<'s, A: AllocHandle> KnownParts<'s, A> {
    /// The expansion of a term by its row, or as a whole where its parts do not tell it.
    pub(crate) fn expand_row(
        &mut self,
        alloc: A,
        script: &'s Script<A>,
        tally: &mut Tally,
        term: &PackedTerm<A>,
        row: &SplitRow<A>,
    ) -> Result<PackedExpansion<'s, A>, Memory>
        requires known { AreKnownOf (script_of script.now) self.old }
        requires closed { IsTermOf (script_of script.now) (packed_process term.now) }
        requires row { IsRowOf self.old (packed_process term.now) row.now }
        ensures known { AreKnownOf (script_of script.now) self.new }
        ensures script { IfOk result (λ e. e.script ≡ script_of script.now) }
        ensures term { IfOk result (λ e. e.term ≡ packed_process term.now) }
    {
        match self.form_of_row(alloc, term, row)? {
            Some(form) => {
                let term = term.try_copy(alloc)?;
                Ok(PackedExpansion::new(script, KeptTerm::Packed(term), form))
            }
            None => {
                let term = term.unpack(alloc)?;
                expand_whole(alloc, script, tally, &term)
            }
        }
    }

    /// The form of a term by its row, whose parts are fired; `None` where they do not tell it.
    fn form_of_row(
        &mut self,
        alloc: A,
        term: &PackedTerm<A>,
        row: &SplitRow<A>,
    ) -> Result<Option<PackedForm<A>>, Memory>
        requires known { AreKnownOf (script_in self.old.parts) self.old }
        requires closed { IsTermOf (script_in self.old.parts) (packed_process term.now) }
        requires row { IsRowOf self.old (packed_process term.now) row.now }
        ensures known { AreKnownOf (script_in self.old.parts) self.new }
        ensures form { IfOk result (λ told. IfSome told
            (IsPackedFormOf (script_in self.old.parts) (packed_process term.now))) }
    {
        if !fire_all(&mut self.parts, alloc, &self.alphabet, &row.numbers)? {
            return Ok(None);
        }
        self.tried.follow_row(&row.numbers, self.parts.all())?;
        self.form_by_parts(alloc, term, row)
    }

    /// The form of a term by its row, whose parts were fired; `None` where they do not tell it.
    fn form_by_parts(
        &self,
        alloc: A,
        term: &PackedTerm<A>,
        row: &SplitRow<A>,
    ) -> Result<Option<PackedForm<A>>, Memory>
        requires known { AreKnownOf (script_in self.now.parts) self.now }
        requires closed { IsTermOf (script_in self.now.parts) (packed_process term.now) }
        requires row { IsRowOf self.now (packed_process term.now) row.now }
        requires fired { AreRowFired self.now.parts row.now.numbers.items }
        ensures { IfOk result (λ told. IfSome told
            (IsPackedFormOf (script_in self.now.parts) (packed_process term.now))) }
    {
        let Some(last) = &self.last else {
            return Ok(None);
        };
        let parts = self.parts.all();
        let Some(nodes) = nodes_of(last.measured.own_size, &row.numbers, parts) else {
            return Ok(None);
        };
        let lent = RowByNumbers {
            shape: &last.measured.shape,
            numbers: &row.numbers,
            parts,
            bytes: term.bytes(),
            places: &row.places,
            nodes,
            levels: &last.measured.levels,
        };
        let form = fire_row(alloc, &lent, &ByProcess(&self.parts))?;
        packed_form(alloc, &self.alphabet, form)
    }
}
