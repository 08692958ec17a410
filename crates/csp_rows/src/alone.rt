//! What a side does alone.

ghost use Rattle.std.specs.Prelude.{◌≡◌, ◌++◌, ◌≤◌, drop, length, take};
ghost use Rattle.csp_rows.specs.Adding.{done_alone, kept_alone};
ghost use Rattle.csp_rows.specs.Stacks.{ArePlacesIn, between};

use crate::bits::Bits;
use crate::changes::Run;
use crate::numbers::ActionId;
use crate::stack::Places;
use crate::step::Step;
use std::alloc::Allocator;

/// What a side does alone by a step of its own, `None` where that is not done alone.
fn alone<A: Allocator>(step: Step, ended: Option<Run>, free: &Bits<A>) -> Option<Step>
    ensures { result ≡ done_alone free.now.marks.items ended step }
{
    match step.action {
        ActionId::Tau => Some(step),
        ActionId::Tick => {
            let action = ActionId::Tau;
            let changes = ended;
            Some(Step { action, changes })
        }
        ActionId::Event(event) => {
            if free.contains(event) {
                Some(step)
            } else {
                None
            }
        }
    }
}

/// Keeps of a side, whose steps stand between the places, what it does alone, from the place `to` on. It may do the events
/// of a set. Its tick is a tau, by which it ends. The answer is the place behind what is kept.
pub(crate) fn keep_alone<A: Allocator>(
    steps: &mut Vec<Step, A>,
    side: Places,
    to: usize,
    ended: Option<Run>,
    free: &Bits<A>,
) -> usize
    requires side { ArePlacesIn (length steps.old.items) side }
    requires below { to ≤ side.from }
    ensures kept { take result steps.new.items ≡ take to steps.old.items
        ++ kept_alone free.now.marks.items ended (between side steps.old.items) }
    ensures below { result ≤ side.to }
    ensures len { length steps.new.items ≡ length steps.old.items }
    ensures others { drop side.to steps.new.items ≡ drop side.to steps.old.items }
{
    let mut behind = to;
    for place in side.from..side.to {
        if let Some(step) = alone(steps[place], ended, free) {
            steps[behind] = step;
            behind += 1;
        }
    }
    behind
}
