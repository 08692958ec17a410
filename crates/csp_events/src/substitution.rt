//! Values put into sets of events and renamings.

ghost use Rattle.std.specs.Prelude.{◌≡◌, IfOk};
ghost use Rattle.theory_semantics.specs.Meaning.Substitution.{put_event, put_event_set, put_events, put_pairs};
ghost use Rattle.csp_expression.specs.Bindings.{bindings_of};
ghost use Rattle.csp_events.specs.Events.{put_pair, event_expression_of, event_expressions_of, event_set_of, renaming_pair_of, renaming_pairs_of};

use crate::event_expression::EventExpression;
use crate::event_set::EventSet;
use crate::renaming_pair::RenamingPair;
use csp_expression::{Binding, put_in_all};
use csp_value::Memory;
use std::alloc::Allocator;

impl<A: Allocator + Copy> EventExpression<A> {
    /// The event in the given allocator with each name of the list replaced by its value. `Memory` where there is no
    /// room.
    pub fn put_in(
        &self,
        alloc: A,
        bindings: &[Binding<'_, A>],
    ) -> Result<EventExpression<A>, Memory>
        ensures { IfOk result (λ put. event_expression_of put
            ≡ put_event (bindings_of bindings.now) (event_expression_of self.now)) }
    {
        let fields = put_in_all(alloc, &self.fields, bindings)?;
        Ok(EventExpression {
            channel: self.channel,
            fields,
        })
    }
}

impl<A: Allocator + Copy> RenamingPair<A> {
    /// The pair in the given allocator with each name of the list replaced by its value. `Memory` where there is no
    /// room.
    pub fn put_in(&self, alloc: A, bindings: &[Binding<'_, A>]) -> Result<RenamingPair<A>, Memory>
        ensures { IfOk result (λ put. renaming_pair_of put
            ≡ put_pair (bindings_of bindings.now) (renaming_pair_of self.now)) }
    {
        let from = self.from.put_in(alloc, bindings)?;
        let to = self.to.put_in(alloc, bindings)?;
        Ok(RenamingPair { from, to })
    }
}

impl<A: Allocator + Copy> EventSet<A> {
    /// The set in the given allocator with each name of the list replaced by its value. `Memory` where there is no
    /// room.
    #[tactic(auto, using(crate::proofs::EventPutting::put_combined))]
    pub fn put_in(&self, alloc: A, bindings: &[Binding<'_, A>]) -> Result<EventSet<A>, Memory>
        ensures { IfOk result (λ put. event_set_of put
            ≡ put_event_set (bindings_of bindings.now) (event_set_of self.now)) }
    {
        match self {
            EventSet::Enumeration(events) => {
                Ok(EventSet::Enumeration(put_in_events(alloc, events, bindings)?))
            }
            EventSet::Productions(events) => {
                Ok(EventSet::Productions(put_in_events(alloc, events, bindings)?))
            }
            EventSet::Combine(operator, left, right) => {
                let left = Box::new(alloc, left.put_in(alloc, bindings)?)?;
                let right = Box::new(alloc, right.put_in(alloc, bindings)?)?;
                Ok(EventSet::Combine(*operator, left, right))
            }
        }
    }
}

/// Each event with the values put in, in order, or `Memory` where there is no room.
fn put_in_events<A: Allocator + Copy>(
    alloc: A,
    events: &[EventExpression<A>],
    bindings: &[Binding<'_, A>],
) -> Result<Vec<EventExpression<A>, A>, Memory>
    ensures { IfOk result (λ all. event_expressions_of all.items
        ≡ put_events (bindings_of bindings.now) (event_expressions_of events.now)) }
{
    let mut all = Vec::new(alloc);
    for event in events {
        all.push(event.put_in(alloc, bindings)?)?;
    }
    Ok(all)
}

/// Each pair with the values put in, in order, or `Memory` where there is no room.
pub fn put_in_pairs<A: Allocator + Copy>(
    alloc: A,
    pairs: &[RenamingPair<A>],
    bindings: &[Binding<'_, A>],
) -> Result<Vec<RenamingPair<A>, A>, Memory>
    ensures { IfOk result (λ all. renaming_pairs_of all.items
        ≡ put_pairs (bindings_of bindings.now) (renaming_pairs_of pairs.now)) }
{
    let mut all = Vec::new(alloc);
    for pair in pairs {
        all.push(pair.put_in(alloc, bindings)?)?;
    }
    Ok(all)
}
