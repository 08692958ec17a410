//! Compositions of which one side moves.

ghost use Rattle.std.specs.Prelude.{◌≡◌, IfOk, Some};
ghost use Rattle.theory_syntax.specs.Process.{Omega};
ghost use Rattle.csp_steps.specs.Answering.{target_of};
ghost use Rattle.csp_steps.specs.Composing.{around_of};

use crate::composition::Composition;
use crate::rule_step::Target;
use csp_term::{AllocHandle, Memory};

/// The side that moves.
#[derive(Clone, Copy)]
pub(crate) enum Hand {
    Left,
    Right,
}

/// A composition without the side that moves.
#[derive(Clone, Copy)]
pub(crate) struct Context<'c, A: AllocHandle> {
    pub(crate) composition: &'c Composition<A>,
    pub(crate) hand: Hand,
    pub(crate) other: &'c Target<A>,
    /// Where a tick of the side that moves leads, if something follows it.
    pub(crate) next: &'c Target<A>,
}

impl<'c, A: AllocHandle> Context<'c, A> {
    /// The composition with the process in the place of the side that moves.
    pub(crate) fn around(self, alloc: A, process: Target<A>) -> Result<Target<A>, Memory>
        ensures { IfOk result (λ t. target_of t ≡ around_of self.entry (target_of process)) }
    {
        let other = self.other.try_copy(alloc)?;
        match self.hand {
            Hand::Left => self.composition.of(alloc, process, other),
            Hand::Right => self.composition.of(alloc, other, process),
        }
    }

    /// The same with the process that has ended.
    pub(crate) fn around_omega(self, alloc: A) -> Result<Target<A>, Memory>
        ensures { IfOk result (λ t. target_of t ≡ around_of self.entry (Some Omega)) }
    {
        self.around(alloc, Target::omega(alloc)?)
    }
}
