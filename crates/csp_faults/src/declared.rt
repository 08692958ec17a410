//! The field sets that a script declares.

ghost use Rattle.theory_semantics.specs.Meaning.Evaluation.{constructor_sets};
ghost use Rattle.theory_semantics.specs.Meaning.Events.{field_sets};
ghost use Rattle.csp_expression.specs.Evaluation.{table_of};
ghost use Rattle.csp_term.specs.Script.{script_of_parts};
ghost use Rattle.csp_faults.specs.Known.{AreDeclared};

use csp_expression::TypeTable;
use csp_term::{AllocHandle, ChannelId, ScriptParts};
use csp_value::{ConId, FieldSet};
use std::alloc::Allocator;

/// The field sets of the channel, if there is such a channel.
pub(crate) fn channel_sets<A: AllocHandle>(
    script: &ScriptParts<A>,
    channel: ChannelId,
) -> Option<&[FieldSet<A>]>
    ensures { AreDeclared result (field_sets (script_of_parts script.now) channel.0) }
{
    match script.channels.get(channel.0 as usize) {
        Some(declared) => Some(&declared.fields),
        None => None,
    }
}

/// The field sets of the constructor, if there is such a constructor.
pub(crate) fn constructor_sets<A: Allocator>(
    types: &TypeTable<A>,
    constructor: ConId,
) -> Option<&[FieldSet<A>]>
    ensures { AreDeclared result (constructor_sets (table_of types.now) constructor.0) }
{
    match types.constructors.get(constructor.0 as usize) {
        Some(declared) => Some(&declared.sets),
        None => None,
    }
}
