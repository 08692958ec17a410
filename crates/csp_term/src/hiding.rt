//! Processes of which events are hidden or renamed.

ghost use Rattle.std.specs.Prelude.{◌≡◌, IfOk};
ghost use Rattle.theory_syntax.specs.Process.{Hiding, Renaming};
ghost use Rattle.theory_semantics.specs.Meaning.Substitution.{put, put_event_set};
ghost use Rattle.csp_expression.specs.Bindings.{bindings_of};
ghost use Rattle.csp_events.specs.Events.{event_set_of, renaming_pairs_of};
ghost use Rattle.csp_term.specs.Term.{process_of, process_of_form};

use crate::term::{Term, TermForm};
use csp_events::{EventSet, RenamingPair, put_in_pairs};
use csp_expression::Binding;
use csp_value::Memory;
use std::alloc::Allocator;

/// The hiding with the values put in. They are in the body already.
pub(crate) fn put_in_hiding<A: Allocator + Copy>(
    alloc: A,
    body: Term<A>,
    hidden: &EventSet<A>,
    bindings: &[Binding<'_, A>],
) -> Result<TermForm<A>, Memory>
    ensures { IfOk result (λ form. process_of_form form
        ≡ Hiding (process_of body)
        (put_event_set (bindings_of bindings.now) (event_set_of hidden.now))) }
{
    Ok(TermForm::Hiding(body, hidden.put_in(alloc, bindings)?))
}

/// The renaming with the values put in.
#[cycle(put_term)]
pub(crate) fn put_in_renaming<A: Allocator + Copy>(
    alloc: A,
    body: &Term<A>,
    pairs: &[RenamingPair<A>],
    bindings: &[Binding<'_, A>],
) -> Result<TermForm<A>, Memory>
    ensures { IfOk result (λ form. process_of_form form
        ≡ put (bindings_of bindings.now)
        (Renaming (process_of body.now) (renaming_pairs_of pairs.now))) }
{
    let body = body.put_in(alloc, bindings)?;
    Ok(TermForm::Renaming(body, put_in_pairs(alloc, pairs, bindings)?))
}
