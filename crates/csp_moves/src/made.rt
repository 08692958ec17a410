//! What the ways of a step lend beside the step itself, which is made before them.

ghost use Rattle.std.specs.Prelude.{◌≡◌, IfOk, map};
ghost use Rattle.csp_value.specs.Action.{event_of};
ghost use Rattle.csp_term.specs.Script.{script_of_parts};
ghost use Rattle.csp_term.specs.Term.{process_of};
ghost use Rattle.csp_moves.specs.Frames.{unframed};
ghost use Rattle.csp_moves.specs.Chains.{chain_process};
ghost use Rattle.csp_moves.specs.Made.{AreEventsOf, IsChainIn, IsMade, form_found, unreplicated};
ghost use Rattle.csp_moves.specs.Way.{lent_action};

use crate::frame::{Frame, framed_of};
use crate::hiding::{Hidden, hidden_events};
use crate::renaming::{Renamed, renamed_events};
use crate::replicated::{Replicated, chain_of};
use crate::way::LentAction;
use csp_term::{AllocHandle, Event, Memory, ScriptParts, Term, TermForm};

/// What the ways of a step lend beside its parts.
#[derive(Drop)]
pub(crate) struct Made<A: AllocHandle> {
    /// The process that has ended.
    pub(crate) ended: Term<A>,
    /// The events of the body by which hiding or renaming does the step.
    pub(crate) events: Vec<Event<A>, A>,
    /// The chain of the instances of a replicated form.
    pub(crate) chain: Option<Term<A>>,
}

/// The events by which hiding or renaming does the step; none of other processes.
fn events_of_step<A: AllocHandle>(
    alloc: A,
    script: &ScriptParts<A>,
    term: &Term<A>,
    action: LentAction<'_, A>,
    target: &Term<A>,
) -> Result<Vec<Event<A>, A>, Memory>
    ensures { IfOk result (λ events. AreEventsOf (script_of_parts script.now)
        (unframed (process_of term.now)) (lent_action action.entry) (process_of target.now)
        (map event_of events.items)) }
{
    let Some(found) = framed_of(term) else {
        return Ok(Vec::new(alloc));
    };
    let body = found.body;
    match found.frame {
        Frame::Hiding(events) => {
            hidden_events(alloc, script, Hidden { body, events }, action, target)
        }
        Frame::Renaming(pairs) => {
            renamed_events(alloc, script, Renamed { body, pairs }, action, target)
        }
    }
}

/// The replicated form, if it is one.
fn replicated_of<'t, A: AllocHandle>(term: &'t Term<A>) -> Option<Replicated<'t, A>>
    ensures { form_found result ≡ unreplicated (process_of term.now) }
{
    match term.form() {
        TermForm::Replicated(operator, name, set, body) => Some(Replicated {
            operator: *operator,
            name: *name,
            set,
            body,
        }),
        TermForm::Stop => None,
        TermForm::Skip => None,
        TermForm::Omega => None,
        TermForm::Call(_, _) => None,
        TermForm::Prefix(_, _, _) => None,
        TermForm::Guard(_, _) => None,
        TermForm::If(_, _, _) => None,
        TermForm::Binary(_, _, _) => None,
        TermForm::GeneralisedParallel(_, _, _) => None,
        TermForm::AlphabetisedParallel(_, _, _, _) => None,
        TermForm::Hiding(_, _) => None,
        TermForm::Renaming(_, _) => None,
        TermForm::SlidingChoice(_, _) => None,
    }
}

/// The chain of the instances of a replicated form; none of other processes.
fn chain_of_term<A: AllocHandle>(
    alloc: A,
    script: &ScriptParts<A>,
    term: &Term<A>,
) -> Result<Option<Term<A>>, Memory>
    ensures { IfOk result (λ chain. IsChainIn (script_of_parts script.now)
        (unreplicated (process_of term.now)) (chain_process chain)) }
{
    let Some(found) = replicated_of(term) else {
        return Ok(None);
    };
    chain_of(alloc, script, found)
}

/// What the ways of the step need. `Memory` says that there is no room for it.
pub(crate) fn made_for<A: AllocHandle>(
    alloc: A,
    script: &ScriptParts<A>,
    term: &Term<A>,
    action: LentAction<'_, A>,
    target: &Term<A>,
) -> Result<Made<A>, Memory>
    ensures { IfOk result (IsMade (script_of_parts script.now) (process_of term.now)
        (lent_action action.entry) (process_of target.now)) }
{
    let ended = Term::new(alloc, TermForm::Omega)?;
    let events = events_of_step(alloc, script, term, action, target)?;
    let chain = chain_of_term(alloc, script, term)?;
    Ok(Made {
        ended,
        events,
        chain,
    })
}
