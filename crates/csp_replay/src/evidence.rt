//! Terms that show the evidence of a violation.

ghost use Rattle.std.specs.Prelude.{◌≢◌, ◌↔◌, map, Contains, IsTrue, IfOk};
ghost use Rattle.theory_semantics.specs.Kinds.Scripts.{IsTermOf};
ghost use Rattle.theory_semantics.specs.Meaning.Violations.{ByDivergence};
ghost use Rattle.theory_runs.specs.States.{Shows};
ghost use Rattle.theory_runs.specs.Layers.{AreTermsOf};
ghost use Rattle.csp_value.specs.Action.{action_of};
ghost use Rattle.csp_term.specs.Script.{script_of};
ghost use Rattle.csp_term.specs.Term.{process_of};
ghost use Rattle.csp_fire.specs.Form.{step_of};
ghost use Rattle.verdict.specs.Outcome.{evidence_of};
ghost use Rattle.csp_replay.specs.Layer.{terms_of};
ghost use Rattle.csp_replay.specs.Ends.{HasStepBy, IsDead, IsEndAt};

use crate::layer::Layer;
use csp_fire::{Expansion, Form, Step, fire};
use csp_term::{Action, AllocHandle, Memory, Script, Term};
use csp_value::laws::equal_actions;
use verdict::Evidence;

/// The place of the first term of the layer that shows the evidence, if there is one. One firing shows no divergence.
pub(crate) fn end_of<A: AllocHandle>(
    alloc: A,
    script: &Script<A>,
    layer: &Layer<A>,
    evidence: &Evidence<A>,
) -> Result<Option<usize>, Memory>
    requires closed { AreTermsOf (script_of script.now) (terms_of layer.now) }
    requires ends { evidence_of evidence.now ≢ ByDivergence }
    ensures { IfOk result (IsEndAt (script_of script.now) (terms_of layer.now)
        (evidence_of evidence.now)) }
{
    for place in 0..layer.len() {
        let expansion = fire(alloc, script, layer.term(place))?;
        if shows(&expansion, evidence) {
            return Ok(Some(place));
        }
    }
    Ok(None)
}

/// Whether the term that was fired shows the evidence.
fn shows<A: AllocHandle>(expansion: &Expansion<'_, A>, evidence: &Evidence<A>) -> bool
    requires { evidence_of evidence.now ≢ ByDivergence }
    ensures { IsTrue result ↔ Shows expansion.now.script expansion.now.term
        (evidence_of evidence.now) }
{
    match expansion.form() {
        Form::Steps(steps, offers) => match evidence {
            Evidence::Event(action) => has_step_by(steps, action),
            Evidence::Offers(actions) => has_offer(offers, actions),
            Evidence::Deadlock => is_dead(expansion.term(), steps),
            Evidence::Divergence => false,
        },
        Form::Faulty(_) => false,
        Form::Large => false,
    }
}

/// Whether the term with these steps has not ended and has none.
fn is_dead<A: AllocHandle>(term: &Term<A>, steps: &[Step<A>]) -> bool
    ensures { IsTrue result ↔ IsDead (process_of term.now) (map step_of steps.now) }
{
    if term.is_omega() {
        return false;
    }
    steps.is_empty()
}

/// Whether one of the steps is by the action.
fn has_step_by<A: AllocHandle>(steps: &[Step<A>], action: &Action<A>) -> bool
    ensures { IsTrue result ↔ HasStepBy (map step_of steps.now) (action_of action.now) }
{
    for step in steps {
        if equal_actions(&step.action, action) {
            return true;
        }
    }
    false
}

/// Whether the actions are one of the offers.
fn has_offer<A: AllocHandle>(offers: &[Vec<Action<A>, A>], actions: &[Action<A>]) -> bool
    ensures { IsTrue result ↔ Contains (map (λ offer. map action_of offer.items) offers.now)
        (map action_of actions.now) }
{
    for offer in offers {
        if offer.as_slice() == actions {
            return true;
        }
    }
    false
}
