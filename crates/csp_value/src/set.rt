//! Sets of values.

ghost use Rattle.std.specs.Prelude.{◌≡◌, ◌≤◌, ◌-◌, ◌↔◌, IfOk, IsTrue, OnOk, filter, not};
ghost use Rattle.std.specs.Option.{SomeIff};
ghost use Rattle.theory_syntax.specs.Value.{has_value, insert_value, insert_values, sorted_values, to_values, values_list};
ghost use Rattle.theory_semantics.specs.Meaning.Limits.{values_depth, values_size};
ghost use Rattle.csp_value.specs.Value.{IsRisingSet, members_of, value_of, values_of};

use crate::copy::TryCopy;
use crate::limits::{are_within_depth, room_left_by};
use crate::memory::Memory;
use crate::rising::is_rising;
use crate::value::{Value, copy_values};
use std::alloc::Allocator;
use std::cmp::Ordering;

/// A set of values: its members rise, so that none is there twice.
#[cycle(value)]
#[derive(Drop)]
#[derive_where(PartialEq, Eq, PartialOrd, Ord, Hash)]
pub struct SetOf<A: Allocator> {
    members: Vec<Value<A>, A>,
}

impl<A: Allocator + Copy> SetOf<A> {
    /// An equal set in the given allocator, or `Memory` where that has no room.
    #[cycle(copy)]
    pub fn try_copy(&self, alloc: A) -> Result<SetOf<A>, Memory>
        ensures { IfOk result (λ copy. members_of copy ≡ members_of self.now) }
    {
        let members = copy_values(alloc, &self.members)?;
        Ok(SetOf { members })
    }
}

impl<A: Allocator + Copy> TryCopy<A> for SetOf<A> {
    ghost use Rattle.csp_value.specs.Value.{members_of};

    ghost is_copy = { λ set copy. members_of copy ≡ members_of set };

    fn try_copy(&self, alloc: A) -> Result<SetOf<A>, Memory> {
        SetOf::try_copy(self, alloc)
    }
}

impl<A: Allocator> SetOf<A> {
    /// What the members together leave of the room for nodes, `None` where they have more of them.
    #[cycle(room)]
    pub(crate) fn room_left(&self, room: u32) -> Option<u32>
        ensures { SomeIff result (values_size (members_of self.now) ≤ room)
            (room - values_size (members_of self.now)) }
    {
        room_left_by(&self.members, room)
    }

    /// Whether each member is at most so deep.
    #[cycle(depth)]
    pub(crate) fn is_within_depth(&self, most: u32) -> bool
        ensures { IsTrue result ↔ (values_depth (members_of self.now) ≤ most) }
    {
        are_within_depth(&self.members, most)
    }

    /// The set of the values, in whatever order and however often they are given. It moves them where they lie, so it
    /// needs no memory.
    pub fn from_values(mut values: Vec<Value<A>, A>) -> SetOf<A>
        ensures members { members_of result ≡ to_values (sorted_values (values_of values.items)) }
        ensures rising { IsRisingSet result }
    {
        values.sort_unstable();
        values.dedup();
        SetOf { members: values }
    }

    /// The members, in order.
    pub fn members(&self) -> &[Value<A>]
        ensures { values_of result.now ≡ values_list (members_of self.now) }
    {
        self.members.as_slice()
    }

    /// Whether the value is a member.
    pub fn contains(&self, value: &Value<A>) -> bool
        ensures { result ≡ has_value (values_list (members_of self.now)) (value_of value.now) }
    {
        // That the members rise stands in no type, so what a binary search misses is looked for in all of them.
        self.members.binary_search(value).is_ok() || self.members.contains(value)
    }

    /// Whether the value is a member of the set, where its members rise: by halving alone.
    pub(crate) fn contains_by_halving(&self, value: &Value<A>) -> bool
        ensures { IsRisingSet self.now → result ≡ has_value (values_list (members_of self.now))
            (value_of value.now) }
    {
        self.members.binary_search(value).is_ok()
    }

    /// The members of either set, or `Memory` where there is no room for them.
    pub fn union(self, other: SetOf<A>) -> Result<SetOf<A>, Memory>
        ensures members { IfOk result (λ both. members_of both
            ≡ to_values (insert_values (values_list (members_of self))
            (values_list (members_of other)))) }
        ensures rising { IsRisingSet other → IfOk result IsRisingSet }
    {
        if !is_rising(&other.members) {
            return insert_each(self.members, other.members);
        }
        let mut both = self.members;
        let mut others = other.members;
        both.append(&mut others)?;
        Ok(SetOf::from_values(both))
    }

    /// The members that are in the other set too. Nothing is copied.
    pub fn intersection(self, other: &SetOf<A>) -> SetOf<A>
        ensures members { members_of result
            ≡ to_values (filter (λ v. has_value (values_list (members_of other.now)) v)
            (values_list (members_of self))) }
        ensures rising { IsRisingSet self → IsRisingSet result }
    {
        let mut members = self.members;
        if is_rising(&other.members) {
            members.retain(|value| other.contains_by_halving(value));
        } else {
            members.retain(|value| other.contains(value));
        }
        SetOf { members }
    }

    /// The members that are not in the other set. Nothing is copied.
    pub fn difference(self, other: &SetOf<A>) -> SetOf<A>
        ensures members { members_of result
            ≡ to_values (filter (λ v. not (has_value (values_list (members_of other.now)) v))
            (values_list (members_of self))) }
        ensures rising { IsRisingSet self → IsRisingSet result }
    {
        let mut members = self.members;
        if is_rising(&other.members) {
            members.retain(|value| !other.contains_by_halving(value));
        } else {
            members.retain(|value| !other.contains(value));
        }
        SetOf { members }
    }
}

/// The set of the members with each of the values put in, in whatever order they stand.
fn insert_each<A: Allocator>(
    values: Vec<Value<A>, A>,
    members: Vec<Value<A>, A>,
) -> Result<SetOf<A>, Memory>
    ensures { IfOk result (λ both. members_of both
        ≡ to_values (insert_values (values_of values.items) (values_of members.items))) }
{
    let mut both = members;
    for value in values {
        insert(&mut both, value)?;
    }
    Ok(SetOf { members: both })
}

/// Puts the value in before the first member above it, unless an equal one comes first.
fn insert<A: Allocator>(members: &mut Vec<Value<A>, A>, value: Value<A>) -> Result<(), Memory>
    ensures { OnOk result (values_of members.new.items
        ≡ insert_value (value_of value) (values_of members.old.items)) }
{
    for place in 0..members.len() {
        match value.cmp(&members[place]) {
            Ordering::Less => {
                members.insert(place, value)?;
                return Ok(());
            }
            Ordering::Equal => return Ok(()),
            Ordering::Greater => {}
        }
    }
    members.push(value)?;
    Ok(())
}
