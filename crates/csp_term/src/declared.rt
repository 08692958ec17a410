//! What events, sets of events and renamings are over the types and the channels that a script declares.

ghost use Rattle.theory_semantics.specs.Meaning.Events.{event_of as written_event, event_test, field_sets, renaming};
ghost use Rattle.csp_events.specs.Events.{event_expression_of, event_set_of, renaming_pairs_of};
ghost use Rattle.csp_events.specs.Imaging.{IsImagesOf};
ghost use Rattle.csp_events.specs.Testing.{AreSetsOf, IsEventOf, IsTestOf};
ghost use Rattle.csp_term.specs.Script.{script_of_parts};

use crate::script::ScriptParts;
use csp_events::{EventExpression, EventSet, EventTest, Images, RenamingPair};
use csp_expression::NoValue;
use csp_value::{AllocHandle, ChannelId, Event, FieldSet};

impl<A: AllocHandle> ScriptParts<A> {
    /// The test that the set is, or why there is none.
    pub fn event_test(&self, alloc: A, set: &EventSet<A>) -> Result<EventTest<A>, NoValue>
        ensures { IsTestOf result (event_test (script_of_parts self.now) (event_set_of set.now)) }
    {
        EventTest::of(alloc, &self.types, &self.channels, set)
    }

    /// What the pairs make of events, or why that is nothing.
    pub fn images(&self, alloc: A, pairs: &[RenamingPair<A>]) -> Result<Images<A>, NoValue>
        ensures { IsImagesOf result (renaming (script_of_parts self.now)
            (renaming_pairs_of pairs.now)) }
    {
        Images::of(alloc, &self.types, &self.channels, pairs)
    }

    /// The field sets of the channel, or the cause where the script has none such.
    pub fn field_sets(&self, channel: ChannelId) -> Result<&[FieldSet<A>], NoValue>
        ensures { AreSetsOf result (field_sets (script_of_parts self.now) channel.0) }
    {
        csp_events::field_sets(&self.channels, channel)
    }

    /// The event that is written, with all its fields, or why there is none.
    pub fn whole_event(&self, alloc: A, written: &EventExpression<A>) -> Result<Event<A>, NoValue>
        ensures { IsEventOf result (written_event (script_of_parts self.now)
            (event_expression_of written.now)) }
    {
        csp_events::whole_event(alloc, &self.types, &self.channels, written)
    }
}
