//! What two sides do together.

ghost use Rattle.std.specs.Prelude.{◌≡◌, ◌++◌, IfOk, OnOk, map};
ghost use Rattle.csp_value.specs.Action.{action_of};
ghost use Rattle.csp_steps.specs.Answering.{answered_of, answers_of, target_of};
ghost use Rattle.csp_steps.specs.Composing.{composition_of, each_answer, one_answer, under_both};
ghost use Rattle.csp_steps.specs.Sharing.{IsSearchable, is_shared};
ghost use Rattle.csp_steps.specs.Together.{AreRising, is_before, is_done_together, meeting_answers, met_answer};

use crate::composition::Composition;
use crate::rule_step::{RuleStep, Target};
use crate::sharing::Sharing;
use csp_term::{Action, AllocHandle, Memory};

/// Two sides that may do events together. The steps of the right one rise by action.
#[derive(Clone, Copy)]
pub(crate) struct Meeting<'m, A: AllocHandle> {
    pub(crate) composition: &'m Composition<A>,
    pub(crate) sharing: &'m Sharing<A>,
    pub(crate) right: &'m [RuleStep<A>],
}

impl<'m, A: AllocHandle> Meeting<'m, A> {
    /// Whether the sides do the action together.
    fn is_shared(self, action: &Action<A>) -> bool
        requires { IsSearchable self.sharing.now }
        ensures { result ≡ is_done_together (is_shared self.entry.sharing.now)
            (action_of action.now) }
    {
        match action {
            Action::Event(event) => self.sharing.is_shared(event),
            Action::Tau | Action::Tick => false,
        }
    }

    /// The step by which both do the action.
    fn both(self, alloc: A, left: &RuleStep<A>, right: &RuleStep<A>) -> Result<RuleStep<A>, Memory>
        ensures { IfOk result (λ s. answered_of s ≡ met_answer self.entry left.now right.now) }
    {
        let target = self.target(alloc, &left.target, &right.target)?;
        let action = left.action.try_copy(alloc)?;
        Ok(RuleStep { action, target })
    }

    /// Where both steps lead.
    fn target(self, alloc: A, left: &Target<A>, right: &Target<A>) -> Result<Target<A>, Memory>
        ensures { IfOk result (λ t. target_of t ≡ under_both
            (composition_of self.entry.composition.now) (target_of left.now)
            (target_of right.now)) }
    {
        let left = left.try_copy(alloc)?;
        let right = right.try_copy(alloc)?;
        self.composition.of(alloc, left, right)
    }

    /// Adds the steps that the right side does together with this one of the left.
    fn add_with(
        self,
        alloc: A,
        left: &RuleStep<A>,
        steps: &mut Vec<RuleStep<A>, A>,
    ) -> Result<(), Memory>
        requires searchable { IsSearchable self.sharing.now }
        requires rising { AreRising self.right.now }
        ensures { OnOk result (answers_of steps.new
            ≡ answers_of steps.old ++ one_answer (meeting_answers self.entry) left.now) }
    {
        if !self.is_shared(&left.action) {
            return Ok(());
        }
        let first = self.right.partition_point(
            |step| -> bool
                ensures { result ≡ is_before (action_of left.entry.now.action) step.now }
            { step.action < left.action },
        );
        for right in &self.right[first..] {
            if right.action != left.action {
                return Ok(());
            }
            steps.push(self.both(alloc, left, right)?)?;
        }
        Ok(())
    }

    /// Adds the steps that both sides do together. Each step of the left side finds those of the right one by halving.
    pub(crate) fn add(
        self,
        alloc: A,
        left: &[RuleStep<A>],
        steps: &mut Vec<RuleStep<A>, A>,
    ) -> Result<(), Memory>
        requires searchable { IsSearchable self.sharing.now }
        requires rising { AreRising self.right.now }
        ensures { OnOk result (answers_of steps.new
            ≡ answers_of steps.old ++ each_answer (meeting_answers self.entry)
            (map answered_of left.now)) }
    {
        for step in left {
            self.add_with(alloc, step, steps)?;
        }
        Ok(())
    }
}
