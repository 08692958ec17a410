//! The acceptances of a term by its steps.

ghost use Rattle.std.specs.Prelude.{◌≡◌, ◌++◌, ◌∷◌, [], IfOk, map};
ghost use Rattle.theory_syntax.specs.Value.{Tick};
ghost use Rattle.csp_value.specs.Action.{action_of};
ghost use Rattle.csp_fire.specs.Form.{step_of};
ghost use Rattle.csp_fire.specs.Offering.{actions_of, has_tau, has_tick, offers_of};

use crate::form::Step;
use csp_term::{Action, AllocHandle, Memory, copy_all};

/// The acceptances of the term whose steps these are, by action: tick alone, where it can tick, and all that it does,
/// where it does no tau.
pub(crate) fn offers<A: AllocHandle>(
    alloc: A,
    steps: &[Step<A>],
) -> Result<Vec<Vec<Action<A>, A>, A>, Memory>
    ensures { IfOk result (λ offers. map (λ xs. map action_of xs.items) offers.items
        ≡ offers_of (map step_of steps.now)) }
{
    let ticks = has_tick(steps);
    let mut offers = Vec::new(alloc);
    if ticks {
        offers.push(tick_alone(alloc)?)?;
    }
    if has_tau(steps) {
        return Ok(offers);
    }
    let all = actions(alloc, steps)?;
    if !ticks || all.len() != 1 {
        offers.push(all)?;
    }
    Ok(offers)
}

fn has_tau<A: AllocHandle>(steps: &[Step<A>]) -> bool
    ensures { result ≡ has_tau (map step_of steps.now) }
{
    for step in steps {
        if let Action::Tau = step.action {
            return true;
        }
    }
    false
}

fn has_tick<A: AllocHandle>(steps: &[Step<A>]) -> bool
    ensures { result ≡ has_tick (map step_of steps.now) }
{
    for step in steps {
        if let Action::Tick = step.action {
            return true;
        }
    }
    false
}

fn tick_alone<A: AllocHandle>(alloc: A) -> Result<Vec<Action<A>, A>, Memory>
    ensures { IfOk result (λ xs. map action_of xs.items ≡ Tick ∷ []) }
{
    let mut offer = Vec::new(alloc);
    offer.push(Action::Tick)?;
    Ok(offer)
}

/// The action of each step, once where the steps behind have the same.
fn actions<A: AllocHandle>(alloc: A, steps: &[Step<A>]) -> Result<Vec<Action<A>, A>, Memory>
    ensures { IfOk result (λ xs. map action_of xs.items ≡ actions_of (map step_of steps.now)) }
{
    let mut actions: Vec<Action<A>, A> = Vec::new(alloc);
    for step in steps {
        match actions.last() {
            Some(last) if *last == step.action => {}
            _ => actions.push(step.action.try_copy(alloc)?)?,
        }
    }
    Ok(actions)
}

/// A copy of each acceptance, in order.
pub fn copy_offers<A: AllocHandle>(
    alloc: A,
    offers: &[Vec<Action<A>, A>],
) -> Result<Vec<Vec<Action<A>, A>, A>, Memory>
    ensures { IfOk result (λ copies. map (λ xs. map action_of xs.items) copies.items
        ≡ map (λ xs. map action_of xs.items) offers.now) }
{
    let mut copies = Vec::new(alloc);
    for offer in offers {
        copies.push(copy_all(alloc, offer)?)?;
    }
    Ok(copies)
}
