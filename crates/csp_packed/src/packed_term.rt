//! Terms within the limits, as bytes.

ghost use Rattle.std.specs.Prelude.{◌≡◌, ◌∷◌, ◌↔◌, [], IfOk, IsTrue};
ghost use Rattle.std.specs.Cmp.Rules.{hashing};
ghost use Rattle.std.proofs.Common.{rules};
ghost use Rattle.theory_syntax.specs.Process.{Omega};
ghost use Rattle.theory_semantics.specs.Meaning.Limits.{fits};
ghost use Rattle.theory_spelling.specs.Spelling.{spelling};
ghost use Rattle.csp_spell.specs.WithinLimits.{IsTermWithinLimits};
ghost use Rattle.csp_term.specs.Term.{process_of};
ghost use Rattle.csp_packed.specs.Within.{SpellsWithin, spells_prop, term_spelled};

use csp_spell::{UnpackFault, unpack};
use csp_term::{Memory, Term, TryCopy};
use std::alloc::Allocator;
use std::hash::{Hash, Hasher};

// The bytes of the process that has ended.
const OMEGA: &[u8] = &[0x03];

/// A term within the limits, as the bytes that spell it. Two are equal exactly where their terms are.
#[derive(Drop)]
#[derive_where(PartialEq, Eq)]
pub struct PackedTerm<A: Allocator> {
    bytes: Vec<u8, A>,
    ghost spells: { SpellsWithin bytes.items } by { spells_prop bytes.items },
}

impl<A: Allocator> PackedTerm<A> {
    ghost use Rattle.csp_packed.specs.Packed.{packed_process};

    /// The spelling of a script's term within the limits, in the given allocator, or `Memory` where that has no room.
    pub fn pack(alloc: A, term: &Term<A>) -> Result<PackedTerm<A>, Memory>
        requires { IsTermWithinLimits (process_of term.now) }
        ensures { IfOk result (λ packed. packed_process packed ≡ process_of term.now) }
    {
        let mut bytes = csp_spell::pack(alloc, term)?;
        bytes.shrink_to_fit();
        Ok(PackedTerm { bytes })
    }

    /// The same as `pack`. The spelling is made in the buffer, which is written over and keeps its room, so that one
    /// buffer serves many terms. After `Memory` the buffer may hold anything.
    pub fn pack_by(
        alloc: A,
        term: &Term<A>,
        buffer: &mut Vec<u8, A>,
    ) -> Result<PackedTerm<A>, Memory>
        requires { IsTermWithinLimits (process_of term.now) }
        ensures { IfOk result (λ packed. packed_process packed ≡ process_of term.now) }
    {
        let bytes = csp_spell::pack_by(alloc, term, buffer)?;
        Ok(PackedTerm { bytes })
    }

    /// The term that the bytes spell, which is within the limits.
    pub fn from_bytes(bytes: Vec<u8, A>) -> PackedTerm<A>
        requires { SpellsWithin bytes.items }
        ensures { packed_process result ≡ term_spelled bytes.items }
    {
        PackedTerm { bytes }
    }

    /// The bytes.
    pub fn bytes(&self) -> &[u8]
        ensures spelled { spelling (packed_process self.now) ≡ result.now }
        ensures within { IsTrue (fits (packed_process self.now)) }
    {
        self.bytes.as_slice()
    }

    /// Whether the process has ended.
    pub fn is_omega(&self) -> bool
        ensures { IsTrue result ↔ (packed_process self.now ≡ Omega) }
    {
        are_same(self.bytes.as_slice(), OMEGA)
    }
}

impl<A: Allocator + Copy> PackedTerm<A> {
    ghost use Rattle.csp_packed.specs.Packed.{packed_process};

    /// The term, in the given allocator, or `Memory` where that has no room.
    pub fn unpack(&self, alloc: A) -> Result<Term<A>, Memory>
        ensures { IfOk result (λ term. process_of term ≡ packed_process self.now) }
    {
        match unpack(alloc, self.bytes.as_slice()) {
            Ok(term) => Ok(term),
            Err(UnpackFault::Memory) => Err(Memory),
            Err(UnpackFault::NotATerm) => unreachable!(),
        }
    }
}

impl<A: Allocator + Copy> TryCopy<A> for PackedTerm<A> {
    ghost use Rattle.csp_packed.specs.Packed.{packed_process};

    ghost is_copy = { λ term copy. packed_process copy ≡ packed_process term };

    fn try_copy(&self, alloc: A) -> Result<PackedTerm<A>, Memory> {
        let mut bytes = Vec::with_capacity(alloc, self.bytes.len())?;
        bytes.extend_from_slice(self.bytes.as_slice())?;
        Ok(PackedTerm { bytes })
    }
}

impl<A: Allocator> Hash for PackedTerm<A> {
    ghost hash_input = { λ term. term.bytes.items ∷ [] };

    ghost respects_eq = { Prim.search (hashing, rules) };

    // One write for all of the bytes, as a slice would make one for each.
    fn hash<H: Hasher>(&self, state: &mut H) {
        state.write(self.bytes.as_slice());
    }
}

// Whether both have the same bytes in the same order.
fn are_same(bytes: &[u8], others: &[u8]) -> bool
    ensures { IsTrue result ↔ (bytes.now ≡ others.now) }
{
    bytes == others
}
