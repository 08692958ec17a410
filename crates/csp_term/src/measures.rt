//! The size and the depth of a term within the limits.

ghost use Rattle.std.specs.Prelude.{◌≡◌, IsTrue};
ghost use Rattle.theory_semantics.specs.Meaning.Limits.{depth, fits, size};
ghost use Rattle.csp_term.specs.Term.{process_of};

use crate::term::Term;
use std::alloc::Allocator;

// The most nodes of a term within the limits.
const MAX_SIZE: u32 = 2000;

/// How many nodes a term within the limits has.
pub fn size_of<A: Allocator + Copy>(term: &Term<A>) -> u32
    requires { IsTrue (fits (process_of term.now)) }
    ensures { result ≡ size (process_of term.now) }
{
    match term.room_left(MAX_SIZE) {
        Some(rest) => MAX_SIZE - rest,
        None => MAX_SIZE,
    }
}

/// How deep a term within the limits is.
pub fn depth_of<A: Allocator + Copy>(term: &Term<A>) -> u32
    requires { IsTrue (fits (process_of term.now)) }
    ensures { result ≡ depth (process_of term.now) }
{
    // Most terms are shallow, and no try goes deeper than the one before it by more than one.
    let mut most = 0;
    while !term.is_within_depth(most) {
        most += 1;
    }
    most
}
