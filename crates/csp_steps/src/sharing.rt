//! Which events the sides of a composition do alone, and which together.

ghost use Rattle.std.specs.Prelude.{◌≡◌};
ghost use Rattle.csp_value.specs.Action.{event_of};
ghost use Rattle.csp_steps.specs.Sharing.{IsSearchable, is_free, is_shared};

use crate::context::Hand;
use csp_events::EventTest;
use csp_term::{AllocHandle, Event};

/// What two sides share.
#[derive(Drop)]
pub(crate) enum Sharing<A: AllocHandle> {
    /// Nothing: each does all its events alone.
    Nothing,
    /// The events of the set, which they do together, and all others alone.
    Events(EventTest<A>),
    /// The events of both sets. Each side does alone those of its own set that are not in the other's.
    Alphabets(EventTest<A>, EventTest<A>),
}

impl<A: AllocHandle> Sharing<A> {
    /// Whether the side does the event alone.
    pub(crate) fn is_free(&self, hand: Hand, event: &Event<A>) -> bool
        requires { IsSearchable self.now }
        ensures { result ≡ is_free self.now hand (event_of event.now) }
    {
        match self {
            Sharing::Nothing => true,
            Sharing::Events(shared) => !shared.holds(event),
            Sharing::Alphabets(left, right) => match hand {
                Hand::Left => left.holds(event) && !right.holds(event),
                Hand::Right => right.holds(event) && !left.holds(event),
            },
        }
    }

    /// Whether the sides do the event together.
    pub(crate) fn is_shared(&self, event: &Event<A>) -> bool
        requires { IsSearchable self.now }
        ensures { result ≡ is_shared self.now (event_of event.now) }
    {
        match self {
            Sharing::Nothing => false,
            Sharing::Events(shared) => shared.holds(event),
            Sharing::Alphabets(left, right) => left.holds(event) && right.holds(event),
        }
    }
}
