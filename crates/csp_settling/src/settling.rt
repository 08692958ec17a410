//! Terms as steps lead to them.

ghost use Rattle.std.specs.Prelude.{◌≡◌, IfOk};
ghost use Rattle.theory_semantics.specs.Meaning.Unfolding.{settled};
ghost use Rattle.csp_term.specs.Script.{assertion_of, property_of, script_of_parts};
ghost use Rattle.csp_term.specs.Term.{process_of};
ghost use Rattle.theory_unfolding.specs.Assertions.{settled_assertion, settled_property, settled_side};
ghost use Rattle.csp_settling.specs.Settling.{TellsUnfolded};

use crate::calls::{no_call, unfold};
use crate::unfolded::Unfolded;
use csp_term::{Assertion, Memory, Property, ScriptParts, Term, Unfolding};
use std::alloc::Allocator;

/// How many names are unfolded in a row, at most.
pub const MOST_UNFOLDINGS: u32 = 8;

/// What the term is settled to: itself in a script whose names do a tau, and where names unfold at once, the term with
/// its active calls unfolded. `Memory` says that there is no room.
pub fn settle<A: Allocator + Copy>(
    alloc: A,
    script: &ScriptParts<A>,
    term: &Term<A>,
) -> Result<Unfolded<A>, Memory>
    ensures { IfOk result (TellsUnfolded (process_of term.now)
        (settled (script_of_parts script.now) (process_of term.now))) }
{
    match script.unfolds {
        Unfolding::ByTau => Ok(Unfolded::Same),
        Unfolding::AtOnce => unfold(alloc, script, MOST_UNFOLDINGS, no_call(term), term),
    }
}

/// The assertion with each side settled. A side that would be past the limits stays. `Memory` says that there is no room.
pub fn settled_assertion<A: Allocator + Copy>(
    alloc: A,
    script: &ScriptParts<A>,
    assertion: &Assertion<A>,
) -> Result<Assertion<A>, Memory>
    ensures { IfOk result (λ settled. assertion_of settled
        ≡ settled_assertion (script_of_parts script.now) (assertion_of assertion.now)) }
{
    let property = settled_property(alloc, script, &assertion.property)?;
    let implementation = settled_side(alloc, script, &assertion.implementation)?;
    Ok(Assertion {
        negated: assertion.negated,
        property,
        implementation,
    })
}

/// The property with the specification settled, if it has one.
fn settled_property<A: Allocator + Copy>(
    alloc: A,
    script: &ScriptParts<A>,
    property: &Property<A>,
) -> Result<Property<A>, Memory>
    ensures { IfOk result (λ settled. property_of settled
        ≡ settled_property (script_of_parts script.now) (property_of property.now)) }
{
    match property {
        Property::Refinement {
            model,
            specification,
        } => {
            let specification = settled_side(alloc, script, specification)?;
            Ok(Property::Refinement {
                model: *model,
                specification,
            })
        }
        Property::DeadlockFree => Ok(Property::DeadlockFree),
        Property::DivergenceFree => Ok(Property::DivergenceFree),
    }
}

/// The side settled, unless it would be past the limits.
fn settled_side<A: Allocator + Copy>(
    alloc: A,
    script: &ScriptParts<A>,
    side: &Term<A>,
) -> Result<Term<A>, Memory>
    ensures { IfOk result (λ t. process_of t ≡ settled_side (script_of_parts script.now)
        (process_of side.now)) }
{
    match settle(alloc, script, side)? {
        Unfolded::Same => side.try_copy(alloc),
        Unfolded::Past => side.try_copy(alloc),
        Unfolded::To(other) => {
            if other.fits() {
                Ok(other)
            } else {
                side.try_copy(alloc)
            }
        }
    }
}
