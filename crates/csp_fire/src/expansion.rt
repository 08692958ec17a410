//! Expansions: a term of a script with its form.

ghost use Rattle.std.specs.Prelude.{◌≡◌};
ghost use Rattle.theory_semantics.specs.Kinds.Scripts.{IsTermOf};
ghost use Rattle.theory_semantics.specs.Meaning.Expansions.{IsExpansion};
ghost use Rattle.csp_term.specs.Term.{process_of};
ghost use Rattle.csp_term.specs.Script.{script_of};
ghost use Rattle.csp_fire.specs.Form.{form_of};

use crate::form::Form;
use csp_term::{AllocHandle, Memory, Script, Term, TryCopy};
use std::marker::Model;

/// A term of a script, closed and well-kinded, with its form, which is exactly what the rules say of the term. It lends
/// the script.
#[derive(Drop)]
pub struct Expansion<'s, A: AllocHandle> {
    pub(crate) script: &'s Script<A>,
    pub(crate) term: Term<A>,
    pub(crate) form: Form<A>,
}

impl<'s, A: AllocHandle> Model for Expansion<'s, A> {
    ghost use Rattle.theory_semantics.specs.Meaning.Expansions as meaning;
    ghost use Rattle.theory_syntax.specs.Codes.Coding.{coded};
    ghost use Rattle.theory_semantics.specs.Codes.Expansions.{coding_expansion};

    ghost Value = { meaning.Expansion };

    ghost coded = { coded coding_expansion };

    ghost use Rattle.csp_fire.specs.Expansion.{expansion_of, IsKept};

    ghost view = { expansion_of };

    ghost invariant = { IsKept };
}

impl<'s, A: AllocHandle> Expansion<'s, A> {
    /// The script that the term is of.
    pub fn script(&self) -> &'s Script<A>
        ensures { script_of result.now ≡ self.now.script }
    {
        self.script
    }

    /// The term that was fired, which is one of the script.
    pub fn term(&self) -> &Term<A>
        ensures value { process_of result.now ≡ self.now.term }
        ensures closed { IsTermOf self.now.script self.now.term }
    {
        &self.term
    }

    /// What the firing showed.
    pub fn form(&self) -> &Form<A>
        ensures value { form_of result.now ≡ self.now.form }
        ensures exact { IsExpansion self.now }
    {
        &self.form
    }

    /// What the firing showed, to keep.
    pub fn into_form(self) -> Form<A>
        ensures { form_of result ≡ self.entry.form }
    {
        self.form
    }
}

impl<'s, A: AllocHandle> TryCopy<A> for Expansion<'s, A> {
    ghost is_copy = { λ expansion copy. copy ≡ expansion };

    fn try_copy(&self, alloc: A) -> Result<Expansion<'s, A>, Memory> {
        let term = self.term.try_copy(alloc)?;
        let form = self.form.try_copy(alloc)?;
        Ok(Expansion {
            script: self.script,
            term,
            form,
        })
    }
}
