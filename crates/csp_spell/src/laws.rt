//! What packing and unpacking mean together for the terms of a script that are within the limits: the bytes of a term
//! give that term again, and two terms are equal exactly where their bytes are.

ghost use Rattle.std.specs.Prelude.{◌≡◌, ◌↔◌, IfOk, IsTrue, Some};
ghost use Rattle.csp_term.specs.Term.{process_of};
ghost use Rattle.csp_spell.specs.Gives.{Gives};
ghost use Rattle.csp_spell.specs.WithinLimits.{IsTermWithinLimits};

use crate::fault::UnpackFault;
use crate::packing::pack;
use crate::unpacking::unpack;
use csp_term::{Memory, Term};
use std::alloc::Allocator;

/// The term again, from its bytes, unless memory is refused.
pub fn unpacked_again<A: Allocator + Copy>(alloc: A, term: &Term<A>) -> Result<Term<A>, UnpackFault>
    requires { IsTermWithinLimits (process_of term.now) }
    ensures { Gives process_of result (Some (process_of term.now)) }
{
    let bytes = pack(alloc, term)?;
    unpack(alloc, &bytes)
}

/// Whether the bytes of two terms are the same, unless memory is refused.
pub fn are_packed_alike<A: Allocator + Copy>(
    alloc: A,
    term: &Term<A>,
    other: &Term<A>,
) -> Result<bool, Memory>
    requires first { IsTermWithinLimits (process_of term.now) }
    requires second { IsTermWithinLimits (process_of other.now) }
    ensures { IfOk result (λ alike. IsTrue alike ↔ (process_of term.now ≡ process_of other.now)) }
{
    let bytes = pack(alloc, term)?;
    let others = pack(alloc, other)?;
    Ok(are_same(&bytes, &others))
}

/// Whether both have the same bytes in the same order.
fn are_same(bytes: &[u8], others: &[u8]) -> bool
    ensures { IsTrue result ↔ (bytes.now ≡ others.now) }
{
    bytes == others
}
