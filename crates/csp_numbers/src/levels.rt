//! How many operators stand over each part of a term.

ghost use Rattle.std.specs.Prelude.{◌≡◌, ◌++◌, ◌+◌, ◌<◌, ◌^◌, IfOk, IsTrue, OnOk, map};
ghost use Rattle.theory_semantics.specs.Meaning.Limits.{fits, size};
ghost use Rattle.theory_shapes.specs.Measures.{levels};
ghost use Rattle.theory_shapes.specs.Parts.{shape_of};
ghost use Rattle.csp_term.specs.Term.{process_of};

use crate::head::Head;
use csp_term::{Memory, Term};
use std::alloc::Allocator;

/// Puts the levels of the parts of the term at the end, where the term itself is at this level. After `Memory` some of
/// them may stand there.
fn push_levels<A: Allocator>(
    term: &Term<A>,
    level: u32,
    all: &mut Vec<u32, A>,
) -> Result<(), Memory>
    requires { level + size (process_of term.now) < 2 ^ 32 }
    ensures { OnOk result (all.new.items ≡ all.old.items
        ++ map (λ k. level + k) (levels (shape_of (process_of term.now)))) }
{
    match Head::of(term) {
        Head::Part => Ok(all.push(level)?),
        Head::Composed(_, left, right) => {
            push_levels(left, level + 1, all)?;
            push_levels(right, level + 1, all)
        }
        Head::Framed(_, body) => push_levels(body, level + 1, all),
    }
}

/// How many operators stand over each part of a term within the limits, from the left, or `Memory` where there is no
/// room for that.
pub fn levels_of<A: Allocator>(alloc: A, term: &Term<A>) -> Result<Vec<u32, A>, Memory>
    requires { IsTrue (fits (process_of term.now)) }
    ensures { IfOk result (λ all. all.items ≡ levels (shape_of (process_of term.now))) }
{
    let mut all = Vec::new(alloc);
    push_levels(term, 0, &mut all)?;
    Ok(all)
}
