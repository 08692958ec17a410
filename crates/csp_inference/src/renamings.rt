//! What renamings ask for.

ghost use Rattle.std.specs.Prelude.{◌≡◌, IfOk, map};
ghost use Rattle.theory_semantics.specs.Meaning.Events.{is_bare, same_sets};
ghost use Rattle.theory_checking.specs.Inference.Processes.{are_bare_alike, are_same_sets};
ghost use Rattle.csp_events.specs.Events.{event_expression_of, renaming_pair_of};
ghost use Rattle.csp_value.specs.Fields.{field_values};
ghost use Rattle.csp_term.specs.Script.{script_of_parts};
ghost use Rattle.csp_inference.specs.Question.{AsksQuestion};
ghost use Rattle.csp_inference.specs.Questions.Renamings.{pair_question, pairs_question};
ghost use Rattle.csp_inference.specs.Renamings.{sets_of_channel};

use crate::equations::Equations;
use crate::numbering::{NumberedName, Numbering};
use csp_events::{EventExpression, RenamingPair};
use csp_term::{ChannelId, ScriptParts};
use csp_value::{FieldSet, Memory};
use std::alloc::Allocator;

fn is_bare<A: Allocator + Copy>(event: &EventExpression<A>) -> bool
    ensures { result ≡ is_bare (event_expression_of event.now) }
{
    event.fields.is_empty()
}

fn same_sets<A: Allocator + Copy>(sets: &[FieldSet<A>], others: &[FieldSet<A>]) -> bool
    ensures { result ≡ same_sets (map field_values sets.now) (map field_values others.now) }
{
    *sets == *others
}

/// Whether the script has both channels, with the same sets for their fields.
fn have_same_sets<A: Allocator + Copy>(
    script: &ScriptParts<A>,
    from: ChannelId,
    to: ChannelId,
) -> bool
    ensures { result ≡ are_same_sets (sets_of_channel script.now from)
        (sets_of_channel script.now to) }
{
    let Some(from) = script.channels.get(from.0 as usize) else {
        return false;
    };
    let Some(to) = script.channels.get(to.0 as usize) else {
        return false;
    };
    same_sets(&from.fields, &to.fields)
}

/// Whether the pair names two channels with the same sets for their fields.
fn are_bare_alike<A: Allocator + Copy>(script: &ScriptParts<A>, pair: &RenamingPair<A>) -> bool
    ensures { result ≡ are_bare_alike (script_of_parts script.now) (renaming_pair_of pair.now) }
{
    is_bare(&pair.from)
        && is_bare(&pair.to)
        && have_same_sets(script, pair.from.channel, pair.to.channel)
}

impl<A: Allocator + Copy> Equations<A> {
    /// Adds the equations for each pair, or is `Memory` where there is no room for them.
    pub(crate) fn ask_pairs(
        &mut self,
        script: &ScriptParts<A>,
        numbering: &Numbering<A>,
        names: &[NumberedName],
        pairs: &[RenamingPair<A>],
    ) -> Result<(), Memory>
        ensures { IfOk result (λ _. AsksQuestion self.old self.new
            (pairs_question script.now numbering.now names.now pairs.now)) }
    {
        for pair in pairs {
            self.ask_pair(script, numbering, names, pair)?;
        }
        Ok(())
    }

    /// Adds the equations for a pair. Two channels with the same sets for their fields ask nothing.
    fn ask_pair(
        &mut self,
        script: &ScriptParts<A>,
        numbering: &Numbering<A>,
        names: &[NumberedName],
        pair: &RenamingPair<A>,
    ) -> Result<(), Memory>
        ensures { IfOk result (λ _. AsksQuestion self.old self.new
            (pair_question script.now numbering.now names.now pair.now)) }
    {
        if are_bare_alike(script, pair) {
            return Ok(());
        }
        self.ask_event(&script.types, numbering, names, &pair.from)?;
        self.ask_event(&script.types, numbering, names, &pair.to)?;
        Ok(())
    }
}
