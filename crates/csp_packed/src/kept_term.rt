//! Terms as bytes, or whole past the limits.

ghost use Rattle.std.specs.Prelude.{◌≡◌, ◌↔◌, IfOk, IsFalse, IsTrue, MatchOption};
ghost use Rattle.theory_syntax.specs.Process.{Omega};
ghost use Rattle.theory_semantics.specs.Meaning.Limits.{fits};
ghost use Rattle.theory_spelling.specs.Spelling.{spelling};
ghost use Rattle.csp_term.specs.Term.{process_of};
ghost use Rattle.csp_packed.specs.Within.{IsOfSomeScript};

use crate::large_term::LargeTerm;
use crate::packed_term::PackedTerm;
use csp_term::{Memory, Term, TryCopy};
use std::alloc::Allocator;

/// A term. Two are equal exactly where they stand for the same process, since none is both within the limits and past
/// them.
#[derive(Drop)]
#[derive_where(PartialEq, Eq, Hash)]
pub enum KeptTerm<A: Allocator> {
    /// One within the limits, as the bytes that spell it.
    Packed(PackedTerm<A>),
    /// One past the limits, of which no bytes are kept.
    Large(LargeTerm<A>),
}

impl<A: Allocator> KeptTerm<A> {
    ghost use Rattle.csp_packed.specs.Packed.{kept_process};

    /// The spelling of the term, `None` where it is past the limits. It takes no memory.
    pub fn spelling(&self) -> Option<&[u8]>
        ensures { MatchOption result (IsFalse (fits (kept_process self.now)))
            (λ bytes. IsTrue (fits (kept_process self.now)) × (spelling (kept_process self.now) ≡ bytes.now)) }
    {
        match self {
            KeptTerm::Packed(term) => Some(term.bytes()),
            KeptTerm::Large(_) => None,
        }
    }

    /// Whether the process has ended.
    pub fn is_omega(&self) -> bool
        ensures { IsTrue result ↔ (kept_process self.now ≡ Omega) }
    {
        match self {
            KeptTerm::Packed(term) => term.is_omega(),
            KeptTerm::Large(large) => large.term.is_omega(),
        }
    }
}

impl<A: Allocator + Copy> KeptTerm<A> {
    ghost use Rattle.csp_packed.specs.Packed.{kept_process};

    /// The term of a script, kept in the given allocator, or `Memory` where that has no room.
    pub fn pack(alloc: A, term: &Term<A>) -> Result<KeptTerm<A>, Memory>
        requires { IsOfSomeScript (process_of term.now) }
        ensures { IfOk result (λ kept. kept_process kept ≡ process_of term.now) }
    {
        if term.fits() {
            Ok(KeptTerm::Packed(PackedTerm::pack(alloc, term)?))
        } else {
            Ok(KeptTerm::Large(LargeTerm::of(alloc, term)?))
        }
    }

    /// The term, in the given allocator, or `Memory` where that has no room.
    pub fn unpack(&self, alloc: A) -> Result<Term<A>, Memory>
        ensures { IfOk result (λ term. process_of term ≡ kept_process self.now) }
    {
        match self {
            KeptTerm::Packed(term) => term.unpack(alloc),
            KeptTerm::Large(large) => large.term.try_copy(alloc),
        }
    }
}

impl<A: Allocator + Copy> TryCopy<A> for KeptTerm<A> {
    ghost use Rattle.csp_packed.specs.Packed.{kept_process};

    ghost is_copy = { λ term copy. kept_process copy ≡ kept_process term };

    fn try_copy(&self, alloc: A) -> Result<KeptTerm<A>, Memory> {
        match self {
            KeptTerm::Packed(term) => Ok(KeptTerm::Packed(term.try_copy(alloc)?)),
            KeptTerm::Large(large) => Ok(KeptTerm::Large(LargeTerm::of(alloc, &large.term)?)),
        }
    }
}
