//! The events that a renaming makes an event of.

ghost use Rattle.std.specs.Prelude.{◌≡◌, ◌≢◌, ◌↔◌, ◌++◌, [], IfOk, IsTrue, OnOk, map};
ghost use Rattle.std.specs.List.{flat_map};
ghost use Rattle.csp_value.specs.Action.{event_of};
ghost use Rattle.csp_events.specs.Imaging.{PairsRise, found_images};
ghost use Rattle.csp_events.specs.Sources.{AreSources, channel_source, event_source};

use crate::images::{Images, on_channel};
use csp_value::laws::equal_events;
use csp_value::{AllocHandle, Event, Memory};

impl<A: AllocHandle> Images<A> {
    /// All events of which this one is an image; or `Memory` where there is no room for them.
    pub fn sources(&self, alloc: A, image: &Event<A>) -> Result<Vec<Event<A>, A>, Memory>
        requires { PairsRise self.now }
        ensures { IfOk result (λ found. AreSources self.now (event_of image.now)
            (map event_of found.items)) }
    {
        let mut found = Vec::new(alloc);
        self.add_channel_sources(alloc, image, &mut found)?;
        self.add_event_sources(alloc, image, &mut found)?;
        if !self.names(alloc, image)? {
            found.push(image.try_copy(alloc)?)?;
        }
        Ok(found)
    }

    // Whether a pair names the event.
    fn names(&self, alloc: A, event: &Event<A>) -> Result<bool, Memory>
        requires { PairsRise self.now }
        ensures { IfOk result (λ names. IsTrue names
            ↔ (found_images self.now (event_of event.now) ≢ [])) }
    {
        let mut found = Vec::new(alloc);
        self.add_by_channels(alloc, event, &mut found)?;
        self.add_by_events(alloc, event, &mut found)?;
        Ok(!found.is_empty())
    }

    // Adds the event on the first channel of each pair that has it on the second.
    fn add_channel_sources(
        &self,
        alloc: A,
        image: &Event<A>,
        found: &mut Vec<Event<A>, A>,
    ) -> Result<(), Memory>
        ensures { OnOk result (map event_of found.new.items
            ≡ map event_of found.old.items ++ flat_map (channel_source (event_of image.now))
            self.now.channels.items) }
    {
        for pair in &self.channels {
            if image.channel == pair.1 {
                found.push(on_channel(alloc, &(pair.1, pair.0), image)?)?;
            }
        }
        Ok(())
    }

    // Adds the first event of each pair whose second it is.
    fn add_event_sources(
        &self,
        alloc: A,
        image: &Event<A>,
        found: &mut Vec<Event<A>, A>,
    ) -> Result<(), Memory>
        ensures { OnOk result (map event_of found.new.items
            ≡ map event_of found.old.items ++ flat_map (event_source (event_of image.now))
            self.now.events.items) }
    {
        for pair in &self.events {
            if equal_events(image, &pair.1) {
                found.push(pair.0.try_copy(alloc)?)?;
            }
        }
        Ok(())
    }
}
