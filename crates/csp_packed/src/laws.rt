//! What the comparisons mean: two packed terms, or two kept ones, are equal exactly where they stand for the same
//! process, whichever allocator holds them. A packed term is hashed by its spelling, in one write.

ghost use Rattle.std.specs.Prelude.{◌≡◌, ◌↔◌, IsTrue};
ghost use Rattle.theory_spelling.specs.Spelling.{spelling};
ghost use Rattle.csp_packed.specs.Packed.{kept_process, packed_process};

use crate::kept_term::KeptTerm;
use crate::packed_term::PackedTerm;
use std::alloc::Allocator;
use std::hash::{Hash, Hasher};

/// Whether two packed terms stand for the same process.
pub fn equal_packed<A: Allocator>(left: &PackedTerm<A>, right: &PackedTerm<A>) -> bool
    ensures { IsTrue result ↔ (packed_process left.now ≡ packed_process right.now) }
{
    left == right
}

/// Whether two kept terms stand for the same process.
pub fn equal_kept<A: Allocator>(left: &KeptTerm<A>, right: &KeptTerm<A>) -> bool
    ensures { IsTrue result ↔ (kept_process left.now ≡ kept_process right.now) }
{
    left == right
}

/// Feeds the spelling of the term to the hasher, at once.
pub fn hash_packed<A: Allocator, H: Hasher>(term: &PackedTerm<A>, hasher: &mut H)
    ensures { hasher.new ≡ H.write hasher.old (spelling (packed_process term.now)) }
{
    term.hash(hasher);
}
