//! Operators of one process, and processes taken apart by them.

ghost use Rattle.std.specs.Prelude.{◌≡◌, ◌↔◌, IsTrue};
ghost use Rattle.csp_events.specs.Events.{event_set_of, renaming_pairs_of};
ghost use Rattle.csp_term.specs.Term.{process_of};
ghost use Rattle.theory_origins.specs.Origin.{InBody};
ghost use Rattle.theory_origins.specs.Telling.{IsBody};
ghost use Rattle.theory_origins.specs.Ways.{Through, part};
ghost use Rattle.csp_moves.specs.Frames.{OfHiding, OfRenaming, frame_of, framed, framed_found, unframed};
ghost use Rattle.csp_moves.specs.Way.{lent_action, lent_process, way_of};

use crate::way::{LentAction, LentPassage, Part, Way};
use csp_events::laws::equal_event_sets;
use csp_events::{EventSet, RenamingPair};
use csp_term::{AllocHandle, Term, TermForm};

/// An operator of one process, without it.
#[derive(Clone, Copy)]
pub(crate) enum Frame<'t, A: AllocHandle> {
    /// `\ S`
    Hiding(&'t EventSet<A>),
    /// `[[from <- to, ..]]`
    Renaming(&'t Vec<RenamingPair<A>, A>),
}

/// A process under its operator.
#[derive(Clone, Copy)]
pub(crate) struct Framed<'t, A: AllocHandle> {
    pub(crate) frame: Frame<'t, A>,
    pub(crate) body: &'t Term<A>,
}

/// The body of the term, if it has one.
pub(crate) fn framed_of<'t, A: AllocHandle>(term: &'t Term<A>) -> Option<Framed<'t, A>>
    ensures { framed_found result ≡ unframed (process_of term.now) }
{
    match term.form() {
        TermForm::Hiding(body, hidden) => Some(Framed {
            frame: Frame::Hiding(hidden),
            body,
        }),
        TermForm::Renaming(body, pairs) => Some(Framed {
            frame: Frame::Renaming(pairs),
            body,
        }),
        TermForm::Stop => None,
        TermForm::Skip => None,
        TermForm::Omega => None,
        TermForm::Call(_, _) => None,
        TermForm::Prefix(_, _, _) => None,
        TermForm::Guard(_, _) => None,
        TermForm::If(_, _, _) => None,
        TermForm::Binary(_, _, _) => None,
        TermForm::GeneralisedParallel(_, _, _) => None,
        TermForm::AlphabetisedParallel(_, _, _, _) => None,
        TermForm::Replicated(_, _, _, _) => None,
        TermForm::SlidingChoice(_, _) => None,
    }
}

/// Whether the pairs are the same, in the same order.
fn equal_pairs<A: AllocHandle>(
    pairs: &Vec<RenamingPair<A>, A>,
    others: &Vec<RenamingPair<A>, A>,
) -> bool
    ensures { IsTrue result
        ↔ (renaming_pairs_of pairs.now.items ≡ renaming_pairs_of others.now.items) }
{
    let left = pairs.as_slice();
    let right = others.as_slice();
    left.cmp(right).is_eq()
}

/// Whether the operators are the same, with the same events.
fn is_same<A: AllocHandle>(frame: &Frame<'_, A>, other: &Frame<'_, A>) -> bool
    ensures { IsTrue result ↔ (frame_of frame.now ≡ frame_of other.now) }
{
    match frame {
        Frame::Hiding(hidden) => is_hiding(hidden, other),
        Frame::Renaming(pairs) => is_renaming(pairs, other),
    }
}

fn is_hiding<A: AllocHandle>(hidden: &EventSet<A>, other: &Frame<'_, A>) -> bool
    ensures { IsTrue result ↔ (OfHiding (event_set_of hidden.now) ≡ frame_of other.now) }
{
    match other {
        Frame::Hiding(other) => equal_event_sets(hidden, other),
        Frame::Renaming(_) => false,
    }
}

fn is_renaming<A: AllocHandle>(pairs: &Vec<RenamingPair<A>, A>, other: &Frame<'_, A>) -> bool
    ensures { IsTrue result
        ↔ (OfRenaming (renaming_pairs_of pairs.now.items) ≡ frame_of other.now) }
{
    match other {
        Frame::Renaming(other) => equal_pairs(pairs, other),
        Frame::Hiding(_) => false,
    }
}

/// What the target has under the operator.
pub(crate) fn body_of<'t, A: AllocHandle>(
    frame: &Frame<'_, A>,
    target: &'t Term<A>,
) -> Option<&'t Term<A>>
    ensures { IsBody (framed (frame_of frame.now)) (process_of target.now) (lent_process result) }
{
    let Some(found) = framed_of(target) else {
        return None;
    };
    if is_same(&found.frame, frame) {
        return Some(found.body);
    }
    None
}

/// The way to the body, which does the action, to the target, if there is one.
pub(crate) fn to_body<'t, A: AllocHandle>(
    process: &'t Term<A>,
    action: LentAction<'t, A>,
    target: Option<&'t Term<A>>,
) -> Way<'t, A>
    ensures { way_of result
        ≡ Through InBody (part (process_of process.now) (lent_action action.entry)
        (lent_process target.entry)) }
{
    let part = Part {
        process,
        action,
        target,
    };
    Way::Through(LentPassage::InBody, part)
}
