//! `P \ A` by the steps of `P`.

ghost use Rattle.theory_syntax.specs.Process.{Hiding};
ghost use Rattle.csp_events.specs.Events.{event_set_of};
ghost use Rattle.csp_term.specs.Term.{process_of};
ghost use Rattle.csp_steps.specs.UnderBindings.{AnswersUnder};

use crate::rule_step::RuleStep;
use crate::{hiding, rules};
use csp_events::EventSet;
use csp_expression::{Binding, NoValue};
use csp_term::{AllocHandle, ScriptParts, Term};

#[cycle(steps)]
pub(crate) fn steps<'v, A: AllocHandle>(
    alloc: A,
    script: &'v ScriptParts<A>,
    bindings: &[Binding<'v, A>],
    hidden: &'v EventSet<A>,
    body: &'v Term<A>,
) -> Result<Vec<RuleStep<A>, A>, NoValue>
    ensures { AnswersUnder script.now bindings.now
        (Hiding (process_of body.now) (event_set_of hidden.now)) result }
{
    let body = rules::steps(alloc, script, bindings, body);
    let hidden = hidden.put_in(alloc, bindings)?;
    hiding::by_body(alloc, script, hidden, body)
}
