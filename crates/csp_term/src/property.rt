//! What assertions ask of their implementations.

ghost use Rattle.std.specs.Prelude.{◌≡◌, option_map};
ghost use Rattle.theory_syntax.specs.Process.{specification_of};
ghost use Rattle.csp_term.specs.Term.{process_of};
ghost use Rattle.csp_term.specs.Script.{property_of};

use crate::term::Term;
use csp_value::{Memory, TryCopy};
use std::alloc::Allocator;
use theory_syntax::Model;

/// A property of processes.
#[derive(Drop)]
#[derive_where(PartialEq, Eq, PartialOrd, Ord, Hash)]
pub enum Property<A: Allocator> {
    /// That it refines a specification.
    Refinement {
        /// The model in which the two are compared.
        model: Model,
        /// The left side.
        specification: Term<A>,
    },
    /// `:[deadlock free]`, that it comes to nowhere where it has no step, unless it has ended.
    DeadlockFree,
    /// `:[divergence free]`, that it comes to nowhere from where it can go on with taus for ever.
    DivergenceFree,
}

impl<A: Allocator> Property<A> {
    /// The process that the implementation is compared with, if there is one.
    pub fn specification(&self) -> Option<&Term<A>>
        ensures { option_map (λ t. process_of t.now) result
            ≡ specification_of (property_of self.now) }
    {
        match self {
            Property::Refinement { specification, .. } => Some(specification),
            Property::DeadlockFree | Property::DivergenceFree => None,
        }
    }
}

impl<A: Allocator + Copy> TryCopy<A> for Property<A> {
    ghost use Rattle.csp_term.specs.Script.{property_of};

    ghost is_copy = { λ p copy. property_of copy ≡ property_of p };

    fn try_copy(&self, alloc: A) -> Result<Property<A>, Memory> {
        match self {
            Property::Refinement {
                model,
                specification,
            } => {
                let specification = specification.try_copy(alloc)?;
                Ok(Property::Refinement {
                    model: *model,
                    specification,
                })
            }
            Property::DeadlockFree => Ok(Property::DeadlockFree),
            Property::DivergenceFree => Ok(Property::DivergenceFree),
        }
    }
}
