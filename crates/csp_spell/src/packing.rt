//! The bytes that spell a term.

ghost use Rattle.std.specs.Prelude.{◌≡◌, ◌++◌, IfOk, OnErr, OnOk};
ghost use Rattle.theory_spelling.specs.Spelling.{spelling};
ghost use Rattle.theory_spelling.specs.Packable.{IsPackable};
ghost use Rattle.theory_spelling.specs.Ranges.{IsInRange};
ghost use Rattle.csp_term.specs.Term.{process_of};

use crate::terms::push_spelling;
use csp_term::{Memory, Term};
use std::alloc::Allocator;

/// The spelling of the term in the given allocator, or `Memory` where that has no room. No list of the term has 2^32
/// items or more.
pub fn pack<A: Allocator>(alloc: A, term: &Term<A>) -> Result<Vec<u8, A>, Memory>
    requires { IsPackable (process_of term.now) }
    ensures spelled { IfOk result (λ bytes. bytes.items ≡ spelling (process_of term.now)) }
    // The numbers of what was packed are in range, since those of the code are.
    ensures range { IfOk result (λ _. IsInRange (process_of term.now)) }
{
    let mut bytes = Vec::new(alloc);
    push_spelling(term, &mut bytes)?;
    Ok(bytes)
}

/// The spelling of the term in the given allocator, with no more room than it needs, or `Memory` where there is no room.
/// It is made in the buffer, which is written over and keeps its room: so one buffer serves many terms. After `Memory`
/// the buffer may hold anything. No list of the term has 2^32 items or more.
pub fn pack_by<A: Allocator>(
    alloc: A,
    term: &Term<A>,
    buffer: &mut Vec<u8, A>,
) -> Result<Vec<u8, A>, Memory>
    requires { IsPackable (process_of term.now) }
    ensures spelled { IfOk result (λ bytes. bytes.items ≡ spelling (process_of term.now)) }
    ensures range { IfOk result (λ _. IsInRange (process_of term.now)) }
{
    buffer.clear();
    push_spelling(term, buffer)?;
    let mut bytes = Vec::with_capacity(alloc, buffer.len())?;
    bytes.extend_from_slice(buffer)?;
    Ok(bytes)
}

/// Puts the spelling of the term at the end, so that spellings can stand one behind the other. It is made aside first:
/// where there is no room, `Memory` is answered, and the bytes are as they were. No list of the term has 2^32 items or
/// more.
pub fn push_term<A: Allocator + Copy>(term: &Term<A>, bytes: &mut Vec<u8, A>) -> Result<(), Memory>
    requires { IsPackable (process_of term.now) }
    ensures spelled { OnOk result (bytes.new.items ≡ bytes.old.items
        ++ spelling (process_of term.now)) }
    ensures range { OnOk result (IsInRange (process_of term.now)) }
    ensures kept { OnErr result (bytes.new.items ≡ bytes.old.items) }
{
    let spelled = pack(*bytes.allocator(), term)?;
    bytes.extend_from_slice(&spelled)?;
    Ok(())
}
