//! Steps that stand on one another: those of a side on top of those that are not yet put together.

ghost use Rattle.std.specs.Prelude.{◌≡◌, ◌++◌, drop, length, take};
ghost use Rattle.csp_rows.specs.Stacks.{ArePlacesIn};

use crate::step::Step;
use std::alloc::Allocator;

/// The steps of a stack from one place on and before another.
#[derive(Clone, Copy)]
pub(crate) struct Places {
    /// Where the first of them stands.
    pub from: usize,
    /// Where the one behind the last of them stands.
    pub to: usize,
}

/// Lets go of the steps between the places. Those behind them take their place.
pub(crate) fn let_go<A: Allocator>(steps: &mut Vec<Step, A>, places: Places)
    requires { ArePlacesIn (length steps.old.items) places }
    ensures { steps.new.items ≡
        take places.from steps.old.items ++ drop places.to steps.old.items }
{
    if places.from < places.to {
        let kept = steps.len() - (places.to - places.from);
        steps.copy_within(places.to.., places.from);
        steps.truncate(kept);
    }
}
