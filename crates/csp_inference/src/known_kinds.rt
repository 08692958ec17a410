//! What is known of the kinds of a tree's parts.

ghost use Rattle.std.specs.Prelude.{[], IfOk};
ghost use Rattle.theory_checking.specs.Faults.{NoneRefused};
ghost use Rattle.theory_checking.specs.Rules.{IsRedeclared, all_declared};
ghost use Rattle.csp_parse.specs.Declarations.{script_of};
ghost use Rattle.csp_inference.specs.KnownKinds.{KnowsKinds};

use crate::equations::Equations;
use crate::numbering::Numbering;
use crate::tree_numbers::number;
use csp_parse::Raw;
use csp_value::Memory;
use std::alloc::Allocator;

/// What is known of the kinds of a tree's parts, once some of its sets are looked at.
#[derive(Drop)]
pub struct KnownKinds<A: Allocator> {
    pub(crate) numbering: Numbering<A>,
    pub(crate) equations: Equations<A>,
}

impl<A: Allocator + Copy> KnownKinds<A> {
    /// Each part of the tree has a number, and no set is looked at yet. `Memory` where there is no room for the
    /// numbers.
    pub fn new(alloc: A, raw: &Raw<'_, A>) -> Result<KnownKinds<A>, Memory>
        ensures { IfOk result (λ known. NoneRefused IsRedeclared (all_declared (script_of raw.now))
            → KnowsKinds (script_of raw.now) [] known) }
    {
        let (numbering, equations) = number(alloc, raw)?;
        Ok(KnownKinds {
            numbering,
            equations,
        })
    }
}
