//! What taus are: those that unfold a name, those that hide an event, and others.

ghost use Rattle.std.specs.Prelude.{◌≡◌, option_map};
ghost use Rattle.theory_explanation.specs.Folding.{kind, kind_above, kind_told};
ghost use Rattle.csp_moves.specs.Origin.{origin_of};
ghost use Rattle.csp_moves.specs.Passage.{passage_of};
ghost use Rattle.counterexample.specs.Folding.{kind_of};

use csp_moves::{Origin, Passage};
use csp_term::{AllocHandle, EquationId};

/// What a tau is, in the process or in a part of it.
#[derive(Clone, Copy)]
pub(crate) enum Kind {
    /// It unfolds the name of the equation.
    Unfolding(EquationId),
    /// It hides an event.
    Hiding,
    /// It is another one.
    Other,
}

/// The kind of a step, where its origin is told.
pub(crate) fn kind_told<A: AllocHandle>(origin: &Option<Origin<A>>) -> Kind
    ensures { kind_of result ≡ kind_told (option_map origin_of origin.now) }
{
    match origin {
        Some(origin) => kind_in(origin),
        None => Kind::Other,
    }
}

// The kind of a step from the origin.
#[cycle(kind)]
fn kind_in<A: AllocHandle>(origin: &Origin<A>) -> Kind
    ensures { kind_of result ≡ kind (origin_of origin.now) }
{
    match origin {
        Origin::Does(_) => Kind::Other,
        Origin::Ends => Kind::Other,
        Origin::Unfolds(equation) => Kind::Unfolding(*equation),
        Origin::Chooses(_) => Kind::Other,
        Origin::Slides => Kind::Other,
        Origin::Below(passage, part) => kind_above(passage, kind_in(part)),
        Origin::Together(_, _) => Kind::Other,
    }
}

// What a step of this kind is above the passage.
fn kind_above<A: AllocHandle>(passage: &Passage<A>, kind: Kind) -> Kind
    ensures { kind_of result ≡ kind_above (passage_of passage.now) (kind_of kind) }
{
    match passage {
        Passage::OnSide(_)
        | Passage::InBody
        | Passage::OnBranch(_)
        | Passage::UnderGuard
        | Passage::InChain => kind,
        Passage::Hides(_) => Kind::Hiding,
        Passage::SideEnds(_) | Passage::Renames(_, _) => Kind::Other,
    }
}
