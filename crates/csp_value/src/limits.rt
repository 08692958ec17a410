//! The size and the depth of a value.

ghost use Rattle.std.specs.Prelude.{◌≤◌, ◌-◌, ◌↔◌, IsTrue};
ghost use Rattle.std.specs.Option.{SomeIff};
ghost use Rattle.theory_syntax.specs.Value.{to_values};
ghost use Rattle.theory_semantics.specs.Meaning.Limits.{value_depth, value_size, values_depth, values_size};
ghost use Rattle.csp_value.specs.Value.{value_of, values_of};

use crate::value::Value;
use std::alloc::Allocator;

impl<A: Allocator> Value<A> {
    /// What the value leaves of the room for nodes, `None` where it has more of them.
    #[cycle(room)]
    pub fn room_left(&self, room: u32) -> Option<u32>
        ensures { SomeIff result (value_size (value_of self.now) ≤ room)
            (room - value_size (value_of self.now)) }
    {
        let rest = room.checked_sub(1)?;
        match self {
            Value::Int(_) | Value::Bool(_) => Some(rest),
            Value::Con(_, fields) => room_left_by(fields, rest),
            Value::Seq(items) => room_left_by(items, rest),
            Value::Set(set) => set.room_left(rest),
        }
    }

    /// Whether the value is at most so deep.
    #[cycle(depth)]
    pub fn is_within_depth(&self, most: u32) -> bool
        ensures { IsTrue result ↔ (value_depth (value_of self.now) ≤ most) }
    {
        if most == 0 {
            return false;
        }
        match self {
            Value::Int(_) | Value::Bool(_) => true,
            Value::Con(_, fields) => are_within_depth(fields, most - 1),
            Value::Seq(items) => are_within_depth(items, most - 1),
            Value::Set(set) => set.is_within_depth(most - 1),
        }
    }
}

/// What the values together leave of the room.
#[cycle(room)]
pub(crate) fn room_left_by<A: Allocator>(values: &[Value<A>], room: u32) -> Option<u32>
    ensures { SomeIff result (values_size (to_values (values_of values.now)) ≤ room)
        (room - values_size (to_values (values_of values.now))) }
{
    let mut rest = room;
    for value in values {
        rest = value.room_left(rest)?;
    }
    Some(rest)
}

/// Whether each of the values is at most so deep.
#[cycle(depth)]
pub(crate) fn are_within_depth<A: Allocator>(values: &[Value<A>], most: u32) -> bool
    ensures { IsTrue result ↔ (values_depth (to_values (values_of values.now)) ≤ most) }
{
    for value in values {
        if !value.is_within_depth(most) {
            return false;
        }
    }
    true
}
