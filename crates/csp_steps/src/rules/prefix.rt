//! A prefix does each event that its fields allow over the field sets of its channel, and goes on as its body with the
//! values of its inputs.

ghost use Rattle.theory_syntax.specs.Process.{Prefix};
ghost use Rattle.csp_term.specs.Field.{fields_of};
ghost use Rattle.csp_term.specs.Term.{process_of};
ghost use Rattle.csp_steps.specs.UnderBindings.{AnswersUnder};

use crate::rule_step::RuleStep;
use crate::rules::communications::{Front, Walk, look_for};
use csp_expression::{Binding, NoValue};
use csp_term::{AllocHandle, Cause, ChannelId, Field, ScriptParts, Term};

pub(crate) fn steps<'v, A: AllocHandle>(
    alloc: A,
    script: &'v ScriptParts<A>,
    bindings: &[Binding<'v, A>],
    channel: ChannelId,
    fields: &'v [Field<A>],
    body: &'v Term<A>,
) -> Result<Vec<RuleStep<A>, A>, NoValue>
    ensures { AnswersUnder script.now bindings.now
        (Prefix channel.0 (fields_of fields.now) (process_of body.now)) result }
{
    let Some(declared) = script.channels.get(channel.0 as usize) else {
        return Err(NoValue::Cause(Cause::Kind));
    };
    let walk = Walk {
        alloc,
        script,
        channel,
        body,
    };
    let front = Front::under(alloc, bindings)?;
    look_for(&walk, &front, fields, &declared.fields, Vec::new(alloc))
}
