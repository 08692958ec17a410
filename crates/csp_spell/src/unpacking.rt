//! The term that bytes spell.

ghost use Rattle.std.specs.Prelude.{◌≡◌, IfOk, Some};
ghost use Rattle.theory_syntax.specs.Process.{Process};
ghost use Rattle.theory_spelling.specs.Spelling.{spelling};
ghost use Rattle.theory_spelling.specs.Spellable.{IsSpellable};
ghost use Rattle.theory_spelling.specs.Reading.{term_of};
ghost use Rattle.csp_term.specs.Term.{process_of};
ghost use Rattle.csp_spell.specs.Gives.{Gives};

use crate::fault::UnpackFault;
use crate::read_terms::read_term;
use csp_term::Term;
use std::alloc::Allocator;

/// The term of which all of the bytes are the spelling.
#[tactic(auto, unfolding(theory_spelling::specs::Reading::term_of))]
fn read_whole<A: Allocator + Copy>(alloc: A, bytes: &[u8]) -> Result<Term<A>, UnpackFault>
    ensures { Gives process_of result (term_of bytes.now) }
{
    let (term, rest) = read_term(alloc, bytes.len(), bytes)?;
    match rest {
        [] => Ok(term),
        [_, ..] => Err(UnpackFault::NotATerm),
    }
}

/// The term of which all of the bytes are the spelling, in the given allocator.
///
/// Any bytes may be given. `NotATerm` is answered where they are the spelling of no term, and `Memory` where the
/// allocator refused what a part of the term needs. A list takes room as its items are read, whatever length it claims.
/// It calls itself as deep as the term nests, which is at most once for a byte.
pub fn unpack<A: Allocator + Copy>(alloc: A, bytes: &[u8]) -> Result<Term<A>, UnpackFault>
    // What is read is spelled so.
    ensures found { IfOk result (λ term. (spelling (process_of term) ≡ bytes.now)
        × IsSpellable (process_of term)) }
    // What is spelled so is read, unless memory is refused.
    ensures only { (p : Process) → IsSpellable p → spelling p ≡ bytes.now
        → Gives process_of result (Some p) }
    // Which fault it is.
    ensures exact { Gives process_of result (term_of bytes.now) }
{
    read_whole(alloc, bytes)
}
