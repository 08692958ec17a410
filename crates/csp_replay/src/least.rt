//! Lists of actions in which no other one lies.

ghost use Rattle.std.specs.Prelude.{[], ◌↔◌, map, IfOk, IsTrue};
ghost use Rattle.theory_search.specs.Acceptances.{IsWithin};
ghost use Rattle.theory_runs.specs.Acceptances.{IsLeastAmong, LiesAlone};
ghost use Rattle.theory_runs.specs.Gathering.{Gathers};
ghost use Rattle.csp_value.specs.Action.{action_of};
ghost use Rattle.csp_replay.specs.Offers.{offers_listed};

use crate::acceptances::Offers;
use csp_term::{Action, AllocHandle, Memory, copy_all};

/// Those of the lists in which no other one lies.
pub(crate) fn least_of<A: AllocHandle>(
    alloc: A,
    offers: &[Vec<Action<A>, A>],
) -> Result<Offers<A>, Memory>
    ensures { IfOk result (λ least. Gathers [] (IsLeastAmong (offers_listed offers.now))
        (offers_listed least.items)) }
{
    let mut least = Vec::new(alloc);
    for offer in offers {
        if !lies_alone(offers, offer) {
            continue;
        }
        least.push(copy_all(alloc, offer)?)?;
    }
    Ok(least)
}

/// Whether none of the lists but these actions themselves lies within them.
fn lies_alone<A: AllocHandle>(offers: &[Vec<Action<A>, A>], actions: &[Action<A>]) -> bool
    ensures { IsTrue result ↔ LiesAlone (offers_listed offers.now) (map action_of actions.now) }
{
    for offer in offers {
        if offer.as_slice() == actions {
            continue;
        }
        if is_within(offer, actions) {
            return false;
        }
    }
    true
}

/// Whether each action of the offer is one of the actions.
fn is_within<A: AllocHandle>(offer: &[Action<A>], actions: &[Action<A>]) -> bool
    ensures { IsTrue result ↔ IsWithin (map action_of offer.now) (map action_of actions.now) }
{
    for action in offer {
        if !actions.contains(action) {
            return false;
        }
    }
    true
}
