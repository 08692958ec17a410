//! What a renaming makes of events, by their numbers.

ghost use Rattle.std.specs.Prelude.{◌≡◌, ◌++◌, IfOk, OnOk, Some, slice_get};
ghost use Rattle.theory_syntax.specs.Value.{event_cmp};
ghost use Rattle.theory_semantics.specs.Meaning.Offers.{RisesBy};
ghost use Rattle.theory_semantics.specs.Meaning.Events.{or_itself, renaming};
ghost use Rattle.theory_shapes.specs.Alphabet.{alphabet as events_of_script};
ghost use Rattle.csp_value.specs.Action.{event_of};
ghost use Rattle.csp_events.specs.Events.{renaming_pairs_of};
ghost use Rattle.csp_term.specs.Script.{script_of_parts};
ghost use Rattle.csp_numbers.specs.Images.{AnswersImages};
ghost use Rattle.csp_numbers.specs.Pairs.{AreNumbersOf, ArePairsOf, ArePlaced, HaveImages, images_by as made_by, or_none};

use crate::alphabet::Alphabet;
use crate::pair::{Pair, pair_of};
use csp_events::RenamingPair;
use csp_expression::NoValue;
use csp_rows::{EventId, Images};
use csp_term::{AllocHandle, Event, Memory, ScriptParts};
use std::alloc::{AllocError, Allocator};

/// The pairs in turn, or the first cause for which one names nothing.
fn pairs_of<A: AllocHandle>(
    alloc: A,
    alphabet: &Alphabet<A>,
    script: &ScriptParts<A>,
    pairs: &[RenamingPair<A>],
) -> Result<Vec<Pair, A>, NoValue>
    requires { alphabet.now ≡ events_of_script (script_of_parts script.now) }
    ensures { ArePairsOf alphabet.now result
        (renaming (script_of_parts script.now) (renaming_pairs_of pairs.now)) }
{
    let mut all = Vec::new(alloc);
    for pair in pairs {
        let named = pair_of(alloc, alphabet, script, pair)?;
        all.push(named)?;
    }
    Ok(all)
}

/// Adds the image, if there is one.
fn add_image<A: Allocator>(
    images: &mut Vec<EventId, A>,
    image: Option<EventId>,
) -> Result<(), AllocError>
    ensures { OnOk result (images.new.items ≡ images.old.items ++ or_none image) }
{
    if let Some(number) = image {
        images.push(number)?;
    }
    Ok(())
}

/// The images of the event of this number. An event that no pair names is its own image.
fn images_of_event<A: AllocHandle>(
    alloc: A,
    alphabet: &Alphabet<A>,
    pairs: &[Pair],
    number: EventId,
    event: &Event<A>,
) -> Result<Vec<EventId, A>, Memory>
    requires rising { RisesBy event_cmp alphabet.now }
    requires numbered { slice_get alphabet.now number.0 ≡ Some (event_of event.now) }
    requires placed { ArePlaced alphabet.now pairs.now }
    ensures { IfOk result (λ found. AreNumbersOf alphabet.now
        (or_itself (event_of event.now) (made_by alphabet.now pairs.now (event_of event.now)))
        found.items) }
{
    let mut images = Vec::new(alloc);
    for pair in pairs {
        let image = pair.image(alphabet, number, event);
        add_image(&mut images, image)?;
    }
    if !images.is_empty() {
        return Ok(images);
    }
    images.push(number)?;
    Ok(images)
}

/// The images of all events.
fn images_by<A: AllocHandle>(
    alloc: A,
    alphabet: &Alphabet<A>,
    pairs: &[Pair],
) -> Result<Images<A>, Memory>
    requires { ArePlaced alphabet.now pairs.now }
    ensures { IfOk result (HaveImages alphabet.now pairs.now) }
{
    let mut images = Vec::new(alloc);
    let events = alphabet.events();
    for (place, event) in events.iter().enumerate() {
        let number = EventId(place as u32);
        let found = images_of_event(alloc, alphabet, pairs, number, event)?;
        images.push(found)?;
    }
    Ok(Images { images })
}

/// The images that the pairs give each event, or the first cause for which they give none.
pub(crate) fn images_of<A: AllocHandle>(
    alloc: A,
    alphabet: &Alphabet<A>,
    script: &ScriptParts<A>,
    pairs: &[RenamingPair<A>],
) -> Result<Images<A>, NoValue>
    requires { alphabet.now ≡ events_of_script (script_of_parts script.now) }
    ensures { AnswersImages alphabet.now (script_of_parts script.now) (renaming_pairs_of pairs.now)
        result }
{
    let pairs = pairs_of(alloc, alphabet, script, pairs)?;
    let images = images_by(alloc, alphabet, &pairs)?;
    Ok(images)
}
