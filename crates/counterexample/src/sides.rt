//! The two sides of a violation.

use csp_term::{AllocHandle, Script, Term};

/// An implementation, and a specification that is told beside it, if there is one.
#[derive(Clone, Copy, Drop)]
pub(crate) struct Sides<'s, A: AllocHandle> {
    /// The script by whose steps the implementation runs.
    pub(crate) script: &'s Script<A>,
    /// The implementation.
    pub(crate) start: &'s Term<A>,
    /// The script of the specification: the same, or with its names read otherwise.
    pub(crate) other: &'s Script<A>,
    /// The specification.
    pub(crate) specification: Option<&'s Term<A>>,
}
