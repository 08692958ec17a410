//! `P [[from <- to, ..]]` by the steps of `P`.

ghost use Rattle.theory_syntax.specs.Process.{Renaming};
ghost use Rattle.csp_events.specs.Events.{renaming_pairs_of};
ghost use Rattle.csp_term.specs.Term.{process_of};
ghost use Rattle.csp_steps.specs.UnderBindings.{AnswersUnder};

use crate::rule_step::RuleStep;
use crate::{renaming, rules};
use csp_events::{RenamingPair, put_in_pairs};
use csp_expression::{Binding, NoValue};
use csp_term::{AllocHandle, ScriptParts, Term};

#[cycle(steps)]
pub(crate) fn steps<'v, A: AllocHandle>(
    alloc: A,
    script: &'v ScriptParts<A>,
    bindings: &[Binding<'v, A>],
    pairs: &'v [RenamingPair<A>],
    body: &'v Term<A>,
) -> Result<Vec<RuleStep<A>, A>, NoValue>
    ensures { AnswersUnder script.now bindings.now
        (Renaming (process_of body.now) (renaming_pairs_of pairs.now)) result }
{
    let body = rules::steps(alloc, script, bindings, body);
    let pairs = put_in_pairs(alloc, pairs, bindings)?;
    renaming::by_body(alloc, script, pairs, body)
}
