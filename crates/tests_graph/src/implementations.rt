//! What graphs are asked of.

ghost use Rattle.std.specs.Prelude.{IfOk};
ghost use Rattle.theory_semantics.specs.Kinds.Scripts.{IsTermOf};
ghost use Rattle.csp_term.specs.Script.{script_of};
ghost use Rattle.csp_term.specs.Term.{process_of};

use csp_term::{Script, Term};
use std::alloc::Allocator;
use std::test::Fail;

/// The implementation of the first assertion, which is a term of the script.
pub(crate) fn implementation<A: Allocator>(script: &Script<A>) -> Result<&Term<A>, Fail>
    ensures { IfOk result (λ term. IsTermOf (script_of script.now) (process_of term.now)) }
{
    let assertions = script.assertions();
    if assertions.is_empty() {
        return Err(Fail::new("no assertion"));
    }
    Ok(&assertions[0].implementation)
}
