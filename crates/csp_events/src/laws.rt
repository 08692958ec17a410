//! What the comparisons mean: two sets of events are equal exactly where those that they stand for are, whichever
//! allocator holds them, their order is that of the definitions, and those that stand for the same have one hash.

ghost use Rattle.std.specs.Prelude.{◌≡◌, ◌↔◌, IsTrue};
ghost use Rattle.std.specs.List.{fold};
ghost use Rattle.theory_syntax.specs.Order.{event_set_cmp};
ghost use Rattle.csp_events.specs.Events.{event_set_of};

use crate::event_set::EventSet;
use std::alloc::Allocator;
use std::cmp::Ordering;
use std::hash::{Hash, Hasher};

/// Whether two sets of events are the same.
pub fn equal_event_sets<A: Allocator>(left: &EventSet<A>, right: &EventSet<A>) -> bool
    ensures { IsTrue result ↔ (event_set_of left.now ≡ event_set_of right.now) }
{
    left == right
}

/// The order of two sets of events is that of what they stand for.
pub fn compare_event_sets<A: Allocator>(left: &EventSet<A>, right: &EventSet<A>) -> Ordering
    ensures { result ≡ event_set_cmp (event_set_of left.now) (event_set_of right.now) }
{
    left.cmp(right)
}

/// Feeds the set to the hasher, which is then as any set that stands for the same leaves it.
pub fn hash_event_set<A: Allocator, H: Hasher>(set: &EventSet<A>, hasher: &mut H)
    ensures { (other : EventSet A) → event_set_of other ≡ event_set_of set.now
        → hasher.new ≡ fold H.write hasher.old (⟦<EventSet<A> as Hash>⟧.hash_input other) }
{
    set.hash(hasher);
}
