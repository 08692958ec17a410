//! Whether some kinds fit the sets so far.

ghost use Rattle.std.specs.Prelude.{◌≡◌, true, OnOk};
ghost use Rattle.csp_expression.specs.Evaluation.{table_of};
ghost use Rattle.csp_inference.specs.Solving.{lent_expression};
ghost use Rattle.csp_kinds.specs.Fit.{IsOpen, TakesClauseField, TakesField, TakesNametype};

use csp_expression::{Expr, TypeTable};
use csp_inference::{Column, KnownKinds, Misfit};
use csp_value::Memory;
use std::alloc::Allocator;

/// What is known of the kinds of the sets so far, as long as some kinds fit them.
#[derive(Drop)]
pub(crate) struct Fit<A: Allocator> {
    pub(crate) known: KnownKinds<A>,
    /// Whether some kinds fit the sets so far.
    pub(crate) some: bool,
}

impl<A: Allocator + Copy> Fit<A> {
    /// Takes up the nametype of this number with its set, if no name in it is refused.
    pub(crate) fn add_nametype(
        &mut self,
        alloc: A,
        types: &TypeTable<A>,
        nametype: usize,
        set: Option<&Expr<A>>,
    ) -> Result<(), Memory>
        requires { IsOpen self.old }
        ensures { OnOk result (TakesNametype (table_of types.now) nametype
            (lent_expression set.entry) self.old self.new) }
    {
        if !self.some {
            return Ok(());
        }
        match self.known.add_nametype(alloc, types, nametype, set) {
            Ok(()) => Ok(()),
            Err(Misfit::NoKinds) => {
                self.some = false;
                Ok(())
            }
            Err(Misfit::Memory) => Err(Memory),
        }
    }

    /// Takes up the field at this place of the constructor of this number with its set, if no name in it is refused.
    pub(crate) fn add_clause_field(
        &mut self,
        alloc: A,
        types: &TypeTable<A>,
        constructor: usize,
        field: usize,
        set: Option<&Expr<A>>,
    ) -> Result<(), Memory>
        requires { IsOpen self.old }
        ensures { OnOk result (TakesClauseField (table_of types.now) constructor field
            (lent_expression set.entry) self.old self.new) }
    {
        if !self.some {
            return Ok(());
        }
        match self
            .known
            .add_clause_field(alloc, types, constructor, field, set)
        {
            Ok(()) => Ok(()),
            Err(Misfit::NoKinds) => {
                self.some = false;
                Ok(())
            }
            Err(Misfit::Memory) => Err(Memory),
        }
    }

    /// Takes up the field of channels with its set, if no name in it is refused.
    pub(crate) fn add_field(
        &mut self,
        alloc: A,
        types: &TypeTable<A>,
        column: Column,
        set: Option<&Expr<A>>,
    ) -> Result<(), Memory>
        requires { IsOpen self.old }
        ensures { OnOk result (TakesField (table_of types.now) column (lent_expression set.entry)
            self.old self.new) }
    {
        if !self.some {
            return Ok(());
        }
        match self.known.add_field(alloc, types, column, set) {
            Ok(()) => Ok(()),
            Err(Misfit::NoKinds) => {
                self.some = false;
                Ok(())
            }
            Err(Misfit::Memory) => Err(Memory),
        }
    }
}
