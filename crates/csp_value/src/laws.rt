//! What the comparisons mean: two values, sets, events or actions are equal exactly where those that they stand for
//! are, whichever allocator holds them, and the order of two of them is that of what they stand for.

ghost use Rattle.std.specs.Prelude.{◌≡◌, ◌↔◌, IsTrue};
ghost use Rattle.theory_syntax.specs.Value.{action_cmp, event_cmp, value_cmp, values_cmp};
ghost use Rattle.csp_value.specs.Action.{action_of, event_of};
ghost use Rattle.csp_value.specs.Value.{members_of, value_of};

use crate::action::{Action, Event};
use crate::handle::AllocHandle;
use crate::set::SetOf;
use crate::value::Value;
use std::alloc::Allocator;
use std::cmp::Ordering;
use std::hash::Hash;

/// Whether two values are the same.
pub fn equal_values<A: Allocator>(value: &Value<A>, other: &Value<A>) -> bool
    ensures { IsTrue result ↔ (value_of value.now ≡ value_of other.now) }
{
    value == other
}

/// Whether two sets have the same members.
pub fn equal_sets<A: Allocator>(set: &SetOf<A>, other: &SetOf<A>) -> bool
    ensures { IsTrue result ↔ (members_of set.now ≡ members_of other.now) }
{
    set == other
}

/// Whether two events are the same.
pub fn equal_events<A: AllocHandle>(event: &Event<A>, other: &Event<A>) -> bool
    ensures { IsTrue result ↔ (event_of event.now ≡ event_of other.now) }
{
    event == other
}

/// Whether two actions are the same.
pub fn equal_actions<A: AllocHandle>(action: &Action<A>, other: &Action<A>) -> bool
    ensures { IsTrue result ↔ (action_of action.now ≡ action_of other.now) }
{
    action == other
}

/// The order of two values is that of what they stand for.
pub fn compare_values<A: Allocator>(value: &Value<A>, other: &Value<A>) -> Ordering
    ensures { result ≡ value_cmp (value_of value.now) (value_of other.now) }
{
    value.cmp(other)
}

/// The order of two sets is that of the lists of their members.
pub fn compare_sets<A: Allocator>(set: &SetOf<A>, other: &SetOf<A>) -> Ordering
    ensures { result ≡ values_cmp (members_of set.now) (members_of other.now) }
{
    set.cmp(other)
}

/// The order of two events is that of what they stand for.
pub fn compare_events<A: AllocHandle>(event: &Event<A>, other: &Event<A>) -> Ordering
    ensures { result ≡ event_cmp (event_of event.now) (event_of other.now) }
{
    event.cmp(other)
}

/// The order of two actions is that of what they stand for.
pub fn compare_actions<A: AllocHandle>(action: &Action<A>, other: &Action<A>) -> Ordering
    ensures { result ≡ action_cmp (action_of action.now) (action_of other.now) }
{
    action.cmp(other)
}

/// Values that stand for the same are hashed alike.
pub fn hash_of_values<A: Allocator>(value: &Value<A>, other: &Value<A>)
    ensures { value_of value.now ≡ value_of other.now
        → ⟦<Value<A> as Hash>⟧.hash_input value.now ≡ ⟦<Value<A> as Hash>⟧.hash_input other.now }
{}

/// Events that stand for the same are hashed alike.
pub fn hash_of_events<A: AllocHandle>(event: &Event<A>, other: &Event<A>)
    ensures { event_of event.now ≡ event_of other.now
        → ⟦<Event<A> as Hash>⟧.hash_input event.now ≡ ⟦<Event<A> as Hash>⟧.hash_input other.now }
{}

/// Actions that stand for the same are hashed alike.
pub fn hash_of_actions<A: AllocHandle>(action: &Action<A>, other: &Action<A>)
    ensures { action_of action.now ≡ action_of other.now
        → ⟦<Action<A> as Hash>⟧.hash_input action.now ≡ ⟦<Action<A> as Hash>⟧.hash_input other.now }
{}
