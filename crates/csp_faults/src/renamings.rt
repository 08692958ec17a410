//! What is to blame in a renaming.

ghost use Rattle.std.specs.Prelude.{◌≡◌};
ghost use Rattle.std.specs.Option.{option_or};
ghost use Rattle.theory_semantics.specs.Meaning.Events.{channel_images};
ghost use Rattle.theory_faults.specs.Culprit.{first_found, misfit};
ghost use Rattle.theory_faults.specs.Events.{event_culprit, pair_culprit};
ghost use Rattle.csp_events.specs.Events.{event_expression_of, renaming_pair_of, renaming_pairs_of};
ghost use Rattle.csp_term.specs.Script.{script_of_parts};
ghost use Rattle.csp_faults.specs.Culprit.{Finds, found_of};

use crate::culprit::Culprit;
use crate::declared::channel_sets;
use crate::events::event_culprit;
use csp_events::{RenamingPair, are_channels, same_sets};
use csp_term::{AllocHandle, ChannelId, Memory, ScriptParts};

/// What is to blame in the first of the pairs in which something is.
pub(crate) fn renaming_culprit<A: AllocHandle>(
    alloc: A,
    script: &ScriptParts<A>,
    pairs: &[RenamingPair<A>],
) -> Result<Option<Culprit<A>>, Memory>
    ensures { Finds result (first_found (pair_culprit (script_of_parts script.now))
        (renaming_pairs_of pairs.now)) }
{
    for pair in pairs {
        let found = pair_culprit(alloc, script, pair)?;
        if found.is_some() {
            return Ok(found);
        }
    }
    Ok(None)
}

/// What is to blame in a pair of channels, or of events.
fn pair_culprit<A: AllocHandle>(
    alloc: A,
    script: &ScriptParts<A>,
    pair: &RenamingPair<A>,
) -> Result<Option<Culprit<A>>, Memory>
    ensures { Finds result (pair_culprit (script_of_parts script.now) (renaming_pair_of pair.now)) }
{
    if are_channels(pair) {
        return Ok(channels_misfit(script, pair.from.channel, pair.to.channel));
    }
    let found = event_culprit(alloc, script, &pair.from)?;
    if found.is_some() {
        return Ok(found);
    }
    event_culprit(alloc, script, &pair.to)
}

/// That there are no such channels, or their fields have other sets.
fn channels_misfit<A: AllocHandle>(
    script: &ScriptParts<A>,
    from: ChannelId,
    to: ChannelId,
) -> Option<Culprit<A>>
    ensures { found_of result ≡ misfit (channel_images (script_of_parts script.now) from.0 to.0) }
{
    let Some(sets) = channel_sets(script, from) else {
        return Some(Culprit::Misfit);
    };
    let Some(others) = channel_sets(script, to) else {
        return Some(Culprit::Misfit);
    };
    if same_sets(sets, others) {
        None
    } else {
        Some(Culprit::Misfit)
    }
}
