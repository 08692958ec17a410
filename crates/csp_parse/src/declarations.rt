//! Declarations and scripts, as they are written.

use crate::expressions::Expression;
use crate::names::Name;
use crate::processes::Process;
use csp_lex::Place;
use std::alloc::Allocator;
use theory_syntax::Model;

/// The set of a nametype, or of a field of a constructor or channel, with the place of its first token.
#[derive(Drop)]
pub struct Domain<'a, A: Allocator> {
    /// The place of the set's first token.
    pub place: Place,
    /// The set.
    pub set: Expression<'a, A>,
}

/// A constructor of a datatype, with the sets of its fields.
#[derive(Drop)]
pub struct Clause<'a, A: Allocator> {
    /// The constructor.
    pub name: Name<'a>,
    /// The sets of its fields.
    pub fields: Vec<Domain<'a, A>, A>,
}

/// What an assertion asks.
#[derive(Drop)]
pub enum Property<'a, A: Allocator> {
    /// `P [T= Q` of `Q`
    Refinement {
        model: Model,
        specification: Box<Process<'a, A>, A>,
    },
    /// `:[deadlock free]`
    DeadlockFree,
    /// `:[divergence free]`
    DivergenceFree,
}

/// A declaration as it is written.
#[derive(Drop)]
pub enum Declaration<'a, A: Allocator> {
    /// `datatype D = A | B.S.T`
    Datatype {
        name: Name<'a>,
        clauses: Vec<Clause<'a, A>, A>,
    },
    /// `nametype N = S`
    Nametype {
        name: Name<'a>,
        domain: Domain<'a, A>,
    },
    /// `channel c, d : S.T`
    Channels {
        names: Vec<Name<'a>, A>,
        domains: Vec<Domain<'a, A>, A>,
    },
    /// `P(x, y) = Q`
    Equation {
        name: Name<'a>,
        parameters: Vec<Name<'a>, A>,
        body: Box<Process<'a, A>, A>,
    },
    /// `assert P [T= Q`, `assert Q :[deadlock free]` or `assert Q :[divergence free]`, and each with `not` behind its
    /// keyword, with the place of its first token
    Assertion {
        place: Place,
        negated: bool,
        property: Property<'a, A>,
        implementation: Box<Process<'a, A>, A>,
    },
}

/// A script as it is written: its declarations, in the order of the text.
#[derive(Drop)]
pub struct Raw<'a, A: Allocator> {
    /// The declarations, in the order of the text.
    pub declarations: Vec<Declaration<'a, A>, A>,
}
