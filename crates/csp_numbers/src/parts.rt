//! The parts of a term.

ghost use Rattle.std.specs.Prelude.{◌≡◌, ◌++◌, IfOk, OnOk};
ghost use Rattle.theory_shapes.specs.Parts.{parts_of};
ghost use Rattle.csp_term.specs.Term.{process_of};
ghost use Rattle.csp_numbers.specs.Lists.{processes_of};

use crate::head::Head;
use csp_term::{Memory, Term};
use std::alloc::Allocator;

/// Puts the parts of the term at the end, from the left. After `Memory` some of them may stand there.
fn push_parts<'t, A: Allocator>(
    term: &'t Term<A>,
    parts: &mut Vec<&'t Term<A>, A>,
) -> Result<(), Memory>
    ensures { OnOk result (processes_of parts.new.items
        ≡ processes_of parts.old.items ++ parts_of (process_of term.now)) }
{
    match Head::of(term) {
        Head::Part => Ok(parts.push(term)?),
        Head::Composed(_, left, right) => {
            push_parts(left, parts)?;
            push_parts(right, parts)
        }
        Head::Framed(_, body) => push_parts(body, parts),
    }
}

/// The parts of the term, from the left, or `Memory` where there is no room for them.
pub fn parts_of<'t, A: Allocator>(
    alloc: A,
    term: &'t Term<A>,
) -> Result<Vec<&'t Term<A>, A>, Memory>
    ensures { IfOk result (λ parts. processes_of parts.items ≡ parts_of (process_of term.now)) }
{
    let mut parts = Vec::new(alloc);
    push_parts(term, &mut parts)?;
    Ok(parts)
}
