//! What stands in the place of a term: what it is unfolded to, unless that is smaller or less deep.

ghost use Rattle.std.specs.Prelude.{◌≡◌, IsTrue, cond, nat_le};
ghost use Rattle.theory_syntax.specs.Process.{Process};
ghost use Rattle.theory_semantics.specs.Meaning.Limits.{depth, fits, size};
ghost use Rattle.theory_semantics.specs.Meaning.Unfolding.{changed_or, in_place_of, is_no_larger, unless_called};
ghost use Rattle.csp_term.specs.Term.{process_of};
ghost use Rattle.csp_settling.specs.Settling.{TellsUnfolded, call_of};

use crate::unfolded::Unfolded;
use csp_term::laws::equal_terms;
use csp_term::{Term, depth_of, size_of};
use std::alloc::Allocator;

/// Whether the term is neither larger nor deeper than the other one, which is within the limits.
pub(crate) fn is_no_larger<A: Allocator + Copy>(term: &Term<A>, other: &Term<A>) -> bool
    requires { IsTrue (fits (process_of other.now)) }
    ensures { result ≡ is_no_larger (process_of term.now) (process_of other.now) }
{
    if !term.fits() {
        return false;
    }
    // Most terms that are unfolded are small, so that little of the other one is gone through.
    has_size(other, size_of(term)) && is_so_deep(other, depth_of(term))
}

/// Whether the term has at least so many nodes.
fn has_size<A: Allocator + Copy>(term: &Term<A>, least: u32) -> bool
    ensures { result ≡ nat_le least (size (process_of term.now)) }
{
    least == 0 || term.room_left(least - 1).is_none()
}

/// Whether the term is at least so deep.
fn is_so_deep<A: Allocator + Copy>(term: &Term<A>, least: u32) -> bool
    ensures { result ≡ nat_le least (depth (process_of term.now)) }
{
    least == 0 || !term.is_within_depth(least - 1)
}

/// Whether the term is the call in whose body it stands.
pub(crate) fn is_call<A: Allocator + Copy>(within: Option<&Term<A>>, term: &Term<A>) -> bool
    ensures { (p : Process) → unless_called (call_of within.entry) (process_of term.now) p
        ≡ cond result (process_of term.now) p }
{
    match within {
        Some(call) => equal_terms(call, term),
        None => false,
    }
}

/// What stands in the place of the term that is unfolded to the other one.
pub(crate) fn in_place_of<A: Allocator + Copy>(term: &Term<A>, other: Term<A>) -> Unfolded<A>
    ensures { TellsUnfolded (process_of term.now)
        (in_place_of (process_of term.now) (process_of other)) result }
{
    if !other.fits() {
        return Unfolded::Past;
    }
    if is_no_larger(term, &other) {
        Unfolded::To(other)
    } else {
        Unfolded::Same
    }
}

/// What stands in the place of the term, which stands for the process that is unfolded so.
pub(crate) fn changed_or<A: Allocator + Copy>(
    term: &Term<A>,
    process: &Term<A>,
    unfolded: Unfolded<A>,
) -> Unfolded<A>
    requires { IsTrue (fits (process_of process.now)) }
    ensures { (v : Process) → TellsUnfolded (process_of process.now) v unfolded →
        TellsUnfolded (process_of term.now) (changed_or (process_of term.now) (process_of process.now) v) result }
{
    match unfolded {
        Unfolded::Same => Unfolded::Same,
        Unfolded::Past => Unfolded::Past,
        Unfolded::To(other) => {
            if equal_terms(process, &other) {
                Unfolded::Same
            } else {
                in_place_of(term, other)
            }
        }
    }
}
