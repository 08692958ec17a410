//! Events, sets of events and the names in them.

ghost use Rattle.std.specs.Prelude.{map};
ghost use Rattle.csp_parse.specs.Events.{event_of};
ghost use Rattle.csp_parse.specs.EventSets.{event_set_of};
ghost use Rattle.csp_names.specs.Walks.{ResolvesEvent, ResolvesEvents, ResolvesEventSet, ResolvesProduction, ResolvesProductions};

use crate::bound_names::BoundNames;
use crate::refusals::Refused;
use crate::scope::Scope;
use crate::terms::combine_sets;
use csp_events::{EventExpression, EventSet};
use csp_parse::{Event as RawEvent, EventSet as RawEventSet};
use std::alloc::Allocator;

impl<'n, 't, A: Allocator + Copy> Scope<'n, 't, A> {
    /// The event that is written, with all fields of its channel.
    pub(crate) fn resolve_event(
        &self,
        alloc: A,
        bound: &BoundNames<'t, A>,
        event: &RawEvent<'t, A>,
    ) -> Result<EventExpression<A>, Refused>
        ensures { ResolvesEvent self.now bound.now (event_of event.now) result }
    {
        let channel = self.resolve_channel(bound, event.channel, event.fields.len())?;
        let fields = self.resolve_expressions(alloc, bound, &event.fields)?;
        Ok(EventExpression { channel, fields })
    }

    /// The beginning of events that is written, with some first fields of its channel.
    fn resolve_production(
        &self,
        alloc: A,
        bound: &BoundNames<'t, A>,
        event: &RawEvent<'t, A>,
    ) -> Result<EventExpression<A>, Refused>
        ensures { ResolvesProduction self.now bound.now (event_of event.now) result }
    {
        let channel = self.resolve_produced(bound, event.channel, event.fields.len())?;
        let fields = self.resolve_expressions(alloc, bound, &event.fields)?;
        Ok(EventExpression { channel, fields })
    }

    fn resolve_events(
        &self,
        alloc: A,
        bound: &BoundNames<'t, A>,
        events: &[RawEvent<'t, A>],
    ) -> Result<Vec<EventExpression<A>, A>, Refused>
        ensures { ResolvesEvents self.now bound.now (map event_of events.now) result }
    {
        let mut resolved = Vec::new(alloc);
        for event in events {
            let one = self.resolve_event(alloc, bound, event)?;
            resolved.push(one)?;
        }
        Ok(resolved)
    }

    fn resolve_productions(
        &self,
        alloc: A,
        bound: &BoundNames<'t, A>,
        events: &[RawEvent<'t, A>],
    ) -> Result<Vec<EventExpression<A>, A>, Refused>
        ensures { ResolvesProductions self.now bound.now (map event_of events.now) result }
    {
        let mut resolved = Vec::new(alloc);
        for event in events {
            let one = self.resolve_production(alloc, bound, event)?;
            resolved.push(one)?;
        }
        Ok(resolved)
    }

    /// The set of events that is written, or the first fault of a name in it.
    pub(crate) fn resolve_event_set(
        &self,
        alloc: A,
        bound: &BoundNames<'t, A>,
        set: &RawEventSet<'t, A>,
    ) -> Result<EventSet<A>, Refused>
        ensures { ResolvesEventSet self.now bound.now (event_set_of set.now) result }
    {
        match set {
            RawEventSet::Enumeration(events) => {
                let events = self.resolve_events(alloc, bound, events)?;
                Ok(EventSet::Enumeration(events))
            }
            RawEventSet::Productions(events) => {
                let events = self.resolve_productions(alloc, bound, events)?;
                Ok(EventSet::Productions(events))
            }
            RawEventSet::Combine(operator, left, right) => {
                let left = self.resolve_event_set(alloc, bound, left)?;
                let right = self.resolve_event_set(alloc, bound, right)?;
                combine_sets(alloc, *operator, left, right)
            }
        }
    }
}
