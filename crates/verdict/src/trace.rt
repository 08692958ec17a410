//! The trace of a path.

use csp_term::{Action, AllocHandle};

/// The actions of a path without its taus, in order.
#[derive(Clone, Copy, Drop)]
pub struct Trace<'a, A: AllocHandle> {
    pub(crate) path: &'a [Action<A>],
}

impl<'a, A: AllocHandle> Iterator for Trace<'a, A> {
    ghost use Rattle.std.specs.Iterator.{YieldsFirstBy, item_count};
    ghost use Rattle.csp_value.specs.Action.{action_of};
    ghost use Rattle.verdict.specs.Outcome.{trace_left};

    type Item = &'a Action<A>;

    ghost next_gives = { YieldsFirstBy (λ x. action_of x.now) trace_left };

    ghost remaining = { item_count trace_left };

    fn next(&mut self) -> Option<&'a Action<A>> {
        while let Some((action, path)) = self.path.split_first() {
            self.path = path;
            match action {
                Action::Tau => {}
                Action::Tick => return Some(action),
                Action::Event(_) => return Some(action),
            }
        }
        None
    }
}
