//! What events and sets of events ask for.

ghost use Rattle.std.specs.Prelude.{IfOk};
ghost use Rattle.csp_inference.specs.Question.{AsksQuestion};
ghost use Rattle.csp_inference.specs.Questions.Events.{beginning_question, beginnings_question, event_question, event_set_question, events_question};

use crate::equations::Equations;
use crate::numbering::{NumberedName, Numbering};
use csp_events::{EventExpression, EventSet};
use csp_expression::TypeTable;
use csp_value::Memory;
use std::alloc::Allocator;

impl<A: Allocator + Copy> Equations<A> {
    /// Adds the equations for an event of a channel with all its fields, or is `Memory` where there is no room for
    /// them.
    pub(crate) fn ask_event(
        &mut self,
        types: &TypeTable<A>,
        numbering: &Numbering<A>,
        names: &[NumberedName],
        event: &EventExpression<A>,
    ) -> Result<(), Memory>
        ensures { IfOk result (λ _. AsksQuestion self.old self.new
            (event_question types.now numbering.now names.now event.now)) }
    {
        let Some(numbers) = numbering.channels.get(event.channel.0 as usize) else {
            self.push_never()?;
            return Ok(());
        };
        self.ask_all(types, numbering, names, &event.fields, numbers)?;
        Ok(())
    }

    /// The same for the beginning of an event, with the first of the channel's fields.
    fn ask_beginning(
        &mut self,
        types: &TypeTable<A>,
        numbering: &Numbering<A>,
        names: &[NumberedName],
        event: &EventExpression<A>,
    ) -> Result<(), Memory>
        ensures { IfOk result (λ _. AsksQuestion self.old self.new
            (beginning_question types.now numbering.now names.now event.now)) }
    {
        let Some(numbers) = numbering.channels.get(event.channel.0 as usize) else {
            self.push_never()?;
            return Ok(());
        };
        self.ask_first(types, numbering, names, &event.fields, numbers)?;
        Ok(())
    }

    /// Adds the equations for each event.
    fn ask_events(
        &mut self,
        types: &TypeTable<A>,
        numbering: &Numbering<A>,
        names: &[NumberedName],
        events: &[EventExpression<A>],
    ) -> Result<(), Memory>
        ensures { IfOk result (λ _. AsksQuestion self.old self.new
            (events_question types.now numbering.now names.now events.now)) }
    {
        for event in events {
            self.ask_event(types, numbering, names, event)?;
        }
        Ok(())
    }

    /// Adds the equations for the beginning of each event.
    fn ask_beginnings(
        &mut self,
        types: &TypeTable<A>,
        numbering: &Numbering<A>,
        names: &[NumberedName],
        events: &[EventExpression<A>],
    ) -> Result<(), Memory>
        ensures { IfOk result (λ _. AsksQuestion self.old self.new
            (beginnings_question types.now numbering.now names.now events.now)) }
    {
        for event in events {
            self.ask_beginning(types, numbering, names, event)?;
        }
        Ok(())
    }

    /// Adds the equations for a set of events, or is `Memory` where there is no room for them.
    pub(crate) fn ask_event_set(
        &mut self,
        types: &TypeTable<A>,
        numbering: &Numbering<A>,
        names: &[NumberedName],
        set: &EventSet<A>,
    ) -> Result<(), Memory>
        ensures { IfOk result (λ _. AsksQuestion self.old self.new
            (event_set_question types.now numbering.now names.now set.now)) }
    {
        match set {
            EventSet::Enumeration(events) => self.ask_events(types, numbering, names, events),
            EventSet::Productions(events) => self.ask_beginnings(types, numbering, names, events),
            EventSet::Combine(_, left, right) => {
                self.ask_event_set(types, numbering, names, left)?;
                self.ask_event_set(types, numbering, names, right)
            }
        }
    }
}
