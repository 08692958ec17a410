//! The channels so far, and the number of their events.

ghost use Rattle.std.specs.Prelude.{◌≡◌, ◌*◌, ◌+◌, ◌++◌, IfOk, None, OnOk, length, map, replicate, ℕ};
ghost use Rattle.theory_checking.specs.Sets.{product_of_sizes};
ghost use Rattle.theory_checking.specs.Rules.{most_events};
ghost use Rattle.csp_parse.specs.Names.{name_of};
ghost use Rattle.csp_value.specs.Fields.{field_values};
ghost use Rattle.csp_names.specs.Scopes.{known_sets};
ghost use Rattle.csp_kinds.specs.Channels.{HasHeads, sets_in};
ghost use Rattle.csp_kinds.specs.Faults.{both_counts, head_fault};
ghost use Rattle.csp_kinds.specs.Looking.{fault_in};
ghost use Rattle.csp_kinds.specs.Members.{IsCount, events_in};

use crate::faults::{SetFault, first_of};
use csp_names::KindFault;
use csp_parse::Name as RawName;
use csp_value::{FieldSet, Memory, copy_all};
use std::alloc::Allocator;

/// The greatest number of events of all channels together.
const MOST_EVENTS: usize = 4096;

/// The channels so far.
#[derive(Drop)]
pub(crate) struct Channels<A: Allocator> {
    /// The field sets of each channel, where it has some.
    pub(crate) field_sets: Vec<Option<Vec<FieldSet<A>, A>>, A>,
    /// The number of events of the channels that have field sets, as long as they are not too many.
    pub(crate) events: Option<usize>,
}

impl<A: Allocator + Copy> Channels<A> {
    /// Adds channels with these names, of which each has these field sets. The fault is at the first name with which
    /// there are too many events.
    pub(crate) fn add(
        &mut self,
        alloc: A,
        names: &[RawName<'_>],
        sets: &Option<Vec<FieldSet<A>, A>>,
    ) -> Result<Option<SetFault>, Memory>
        ensures added { OnOk result (sets_in self.new ≡ sets_in self.old
            ++ replicate (length names.now) (known_sets sets.now)) }
        ensures heads { IfOk result (HasHeads (map name_of names.now) (known_sets sets.now) self.old
            self.new) }
        ensures quiet { IfOk result (λ fault. known_sets sets.now ≡ None → fault_in fault ≡ None) }
    {
        let own = events_with(sets);
        let mut fault = None;
        for name in names {
            let copy = copy_of(alloc, sets)?;
            self.field_sets.push(copy)?;
            self.events = both(self.events, own);
            fault = first_of(fault, head_fault(*name, sets.is_some(), self.events));
        }
        Ok(fault)
    }
}

/// A copy of field sets, if there are some.
fn copy_of<A: Allocator + Copy>(
    alloc: A,
    sets: &Option<Vec<FieldSet<A>, A>>,
) -> Result<Option<Vec<FieldSet<A>, A>>, Memory>
    ensures { IfOk result (λ copy. known_sets copy ≡ known_sets sets.now) }
{
    match sets {
        Some(sets) => Ok(Some(copy_all(alloc, sets)?)),
        None => Ok(None),
    }
}

/// The number of events of a channel with these field sets, and none without them.
fn events_with<A: Allocator>(sets: &Option<Vec<FieldSet<A>, A>>) -> Option<usize>
    ensures { IsCount result (events_in (known_sets sets.now)) }
{
    match sets {
        Some(sets) => events_of(sets),
        None => Some(0),
    }
}

/// The fault at the name of a channel, where there are so many events with it.
fn head_fault(name: RawName<'_>, has_sets: bool, events: Option<usize>) -> Option<SetFault>
    ensures { fault_in result ≡ head_fault (name_of name.entry) has_sets events }
{
    if has_sets && events.is_none() {
        Some(SetFault {
            fault: KindFault::TooManyEvents,
            place: name.place,
        })
    } else {
        None
    }
}

/// The number of events of a channel with these field sets, if it is not too great.
fn events_of<A: Allocator>(sets: &[FieldSet<A>]) -> Option<usize>
    ensures { IsCount result (product_of_sizes (map field_values sets.now)) }
{
    let mut events = Some(1);
    for set in sets {
        events = times(events, set.members().len());
    }
    events
}

/// The sum of two numbers of events, if it is not too great.
fn both(events: Option<usize>, other: Option<usize>) -> Option<usize>
    ensures { result ≡ both_counts events other }
{
    limited(events?.checked_add(other?)?)
}

/// The number of events so many times, if it is not too great.
fn times(events: Option<usize>, count: usize) -> Option<usize>
    ensures { (n : ℕ) → IsCount events n → IsCount result (n * count) }
{
    if count == 0 {
        return Some(0);
    }
    limited(events?.checked_mul(count)?)
}

/// The number of events, if it is not too great.
fn limited(events: usize) -> Option<usize>
    ensures { IsCount result events }
{
    if events <= MOST_EVENTS {
        Some(events)
    } else {
        None
    }
}
