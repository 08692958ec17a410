//! What is accepted, by actions in order.

ghost use Rattle.std.specs.Prelude.{◌≡◌, ◌∷◌, [], IfOk, map};
ghost use Rattle.csp_rows.specs.declared.numbers.ActionId.TheVariants as by_number;
ghost use Rattle.csp_rows.specs.InOrder as orders;

use crate::numbers::ActionId;
use std::alloc::{AllocError, Allocator};

/// The list of these actions alone.
fn one_offer<A: Allocator + Copy>(
    alloc: A,
    actions: &[ActionId],
) -> Result<Vec<Vec<ActionId, A>, A>, AllocError>
    ensures { IfOk result (λ offers. map (λ xs. xs.items) offers.items ≡ actions.now ∷ []) }
{
    let mut offers = Vec::with_capacity(alloc, 1)?;
    offers.push(Vec::from_slice(alloc, actions)?)?;
    Ok(offers)
}

/// What is accepted beside tau, by the other actions.
fn offers_beside_tau<A: Allocator + Copy>(
    alloc: A,
    actions: &[ActionId],
) -> Result<Vec<Vec<ActionId, A>, A>, AllocError>
    ensures { IfOk result (λ offers. map (λ xs. xs.items) offers.items
        ≡ orders.offers_beside_tau actions.now) }
{
    match actions {
        [ActionId::Tick, ..] => one_offer(alloc, &[ActionId::Tick]),
        _ => Ok(Vec::new(alloc)),
    }
}

/// What is accepted by actions in order, each once: tick alone, if it is one of them, and all, if tau is none of them.
pub fn offers_of<A: Allocator + Copy>(
    alloc: A,
    actions: &[ActionId],
) -> Result<Vec<Vec<ActionId, A>, A>, AllocError>
    ensures { IfOk result (λ offers. map (λ xs. xs.items) offers.items
        ≡ orders.offers_of actions.now) }
{
    match actions {
        [ActionId::Tau, others @ ..] => offers_beside_tau(alloc, others),
        [ActionId::Tick, _, ..] => tick_and_all(alloc, actions),
        _ => one_offer(alloc, actions),
    }
}

/// Tick alone, and all of these.
fn tick_and_all<A: Allocator + Copy>(
    alloc: A,
    actions: &[ActionId],
) -> Result<Vec<Vec<ActionId, A>, A>, AllocError>
    ensures { IfOk result (λ offers. map (λ xs. xs.items) offers.items
        ≡ (by_number.Tick ∷ []) ∷ actions.now ∷ []) }
{
    let mut offers = one_offer(alloc, &[ActionId::Tick])?;
    offers.push(Vec::from_slice(alloc, actions)?)?;
    Ok(offers)
}
