//! Operators of two sides, and processes taken apart by them.

ghost use Rattle.std.specs.Prelude.{◌≡◌, ◌↔◌, IsTrue};
ghost use Rattle.csp_events.specs.Events.{event_set_of};
ghost use Rattle.csp_term.specs.Term.{process_of};
ghost use Rattle.csp_moves.specs.Sides.{OfAlphabetised, OfBinary, OfGeneralised, OfSliding, joint_of, joined, sides_found, sides_split, taken_apart};
ghost use Rattle.csp_moves.specs.Way.{lent_process};
ghost use Rattle.theory_origins.specs.Telling.{IsBody, IsSplit};

use csp_events::EventSet;
use csp_events::laws::equal_event_sets;
use csp_term::laws::equal_terms;
use csp_term::{AllocHandle, ProcessOperator, Term, TermForm};

/// An operator of two sides, without them.
#[derive(Clone, Copy)]
pub(crate) enum Joint<'t, A: AllocHandle> {
    /// One that has nothing beside its sides.
    Binary(ProcessOperator),
    /// `[| S |]`
    Generalised(&'t EventSet<A>),
    /// `[S || T]`
    Alphabetised(&'t EventSet<A>, &'t EventSet<A>),
    /// `[>`
    Sliding,
}

/// The sides of a process under their operator.
#[derive(Clone, Copy)]
pub(crate) struct Sides<'t, A: AllocHandle> {
    pub(crate) operator: Joint<'t, A>,
    pub(crate) left: &'t Term<A>,
    pub(crate) right: &'t Term<A>,
}

/// The sides of the term, if it has two.
pub(crate) fn sides_of<'t, A: AllocHandle>(term: &'t Term<A>) -> Option<Sides<'t, A>>
    ensures { sides_found result ≡ taken_apart (process_of term.now) }
{
    match term.form() {
        TermForm::Binary(operator, left, right) => Some(Sides {
            operator: Joint::Binary(*operator),
            left,
            right,
        }),
        TermForm::GeneralisedParallel(left, shared, right) => Some(Sides {
            operator: Joint::Generalised(shared),
            left,
            right,
        }),
        TermForm::AlphabetisedParallel(left, own, other, right) => Some(Sides {
            operator: Joint::Alphabetised(own, other),
            left,
            right,
        }),
        TermForm::SlidingChoice(left, right) => Some(Sides {
            operator: Joint::Sliding,
            left,
            right,
        }),
        TermForm::Stop => None,
        TermForm::Skip => None,
        TermForm::Omega => None,
        TermForm::Call(_, _) => None,
        TermForm::Prefix(_, _, _) => None,
        TermForm::Guard(_, _) => None,
        TermForm::If(_, _, _) => None,
        TermForm::Hiding(_, _) => None,
        TermForm::Renaming(_, _) => None,
        TermForm::Replicated(_, _, _, _) => None,
    }
}

/// Whether the operators are the same, with the same sets.
pub(crate) fn is_same<A: AllocHandle>(operator: &Joint<'_, A>, other: &Joint<'_, A>) -> bool
    ensures { IsTrue result ↔ (joint_of operator.now ≡ joint_of other.now) }
{
    match operator {
        Joint::Binary(operator) => is_binary(*operator, other),
        Joint::Generalised(shared) => is_generalised(shared, other),
        Joint::Alphabetised(first, second) => is_alphabetised(first, second, other),
        Joint::Sliding => is_sliding(other),
    }
}

fn is_binary<A: AllocHandle>(operator: ProcessOperator, other: &Joint<'_, A>) -> bool
    ensures { IsTrue result ↔ (OfBinary operator ≡ joint_of other.now) }
{
    match other {
        Joint::Binary(other) => operator == *other,
        Joint::Generalised(_) => false,
        Joint::Alphabetised(_, _) => false,
        Joint::Sliding => false,
    }
}

fn is_generalised<A: AllocHandle>(shared: &EventSet<A>, other: &Joint<'_, A>) -> bool
    ensures { IsTrue result ↔ (OfGeneralised (event_set_of shared.now) ≡ joint_of other.now) }
{
    match other {
        Joint::Generalised(other) => equal_event_sets(shared, other),
        Joint::Binary(_) => false,
        Joint::Alphabetised(_, _) => false,
        Joint::Sliding => false,
    }
}

fn is_alphabetised<A: AllocHandle>(
    first: &EventSet<A>,
    second: &EventSet<A>,
    other: &Joint<'_, A>,
) -> bool
    ensures { IsTrue result
        ↔ (OfAlphabetised (event_set_of first.now) (event_set_of second.now) ≡ joint_of other.now) }
{
    match other {
        Joint::Alphabetised(own, other) => {
            equal_event_sets(first, own) && equal_event_sets(second, other)
        }
        Joint::Binary(_) => false,
        Joint::Generalised(_) => false,
        Joint::Sliding => false,
    }
}

fn is_sliding<A: AllocHandle>(other: &Joint<'_, A>) -> bool
    ensures { IsTrue result ↔ (OfSliding ≡ joint_of other.now) }
{
    match other {
        Joint::Sliding => true,
        Joint::Binary(_) => false,
        Joint::Generalised(_) => false,
        Joint::Alphabetised(_, _) => false,
    }
}

/// Whether the operators are the same, and the terms too.
fn are_same<A: AllocHandle>(
    operator: &Joint<'_, A>,
    term: &Term<A>,
    other_operator: &Joint<'_, A>,
    other: &Term<A>,
) -> bool
    ensures { IsTrue result
        ↔ ((joint_of operator.now ≡ joint_of other_operator.now)
        × (process_of term.now ≡ process_of other.now)) }
{
    is_same(operator, other_operator) && equal_terms(term, other)
}

/// What the target has on the left under the operator, where it has the term on the right.
pub(crate) fn left_of<'t, A: AllocHandle>(
    operator: &Joint<'_, A>,
    right: &Term<A>,
    target: &'t Term<A>,
) -> Option<&'t Term<A>>
    ensures { IsBody (λ u. joined (joint_of operator.now) u (process_of right.now))
        (process_of target.now) (lent_process result) }
{
    let Some(sides) = sides_of(target) else {
        return None;
    };
    if are_same(&sides.operator, sides.right, operator, right) {
        return Some(sides.left);
    }
    None
}

/// What the target has on the right under the operator, where it has the term on the left.
pub(crate) fn right_of<'t, A: AllocHandle>(
    operator: &Joint<'_, A>,
    left: &Term<A>,
    target: &'t Term<A>,
) -> Option<&'t Term<A>>
    ensures { IsBody (λ v. joined (joint_of operator.now) (process_of left.now) v)
        (process_of target.now) (lent_process result) }
{
    let Some(sides) = sides_of(target) else {
        return None;
    };
    if are_same(&sides.operator, sides.left, operator, left) {
        return Some(sides.right);
    }
    None
}

/// Both sides of the target under the operator.
pub(crate) fn both_of<'t, A: AllocHandle>(
    operator: &Joint<'_, A>,
    target: &'t Term<A>,
) -> Option<Sides<'t, A>>
    ensures { IsSplit (joined (joint_of operator.now)) (process_of target.now)
        (sides_split result) }
{
    let Some(sides) = sides_of(target) else {
        return None;
    };
    if is_same(&sides.operator, operator) {
        return Some(sides);
    }
    None
}
