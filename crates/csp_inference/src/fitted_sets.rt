//! Whether kinds fit one set more.

ghost use Rattle.std.specs.Prelude.{◌≡◌, IfOk, slice_get};
ghost use Rattle.csp_expression.specs.Evaluation.{table_of};
ghost use Rattle.csp_expression.specs.Expression.{expression_of};
ghost use Rattle.csp_inference.specs.KnownKinds.{FitsClauseField, FitsField, FitsNametype, HasResolvedKinds};
ghost use Rattle.csp_inference.specs.TreeNumbers.{IsColumnFound, IsFound, number_rows, row_numbers};
ghost use Rattle.csp_inference.specs.Solving.{SolvedForCopies, SolvedForSet, lent_expression};

use crate::chain::KindNumber;
use crate::known_kinds::KnownKinds;
use crate::misfit::Misfit;
use csp_expression::{Expr, TypeTable};
use csp_value::Memory;
use std::alloc::Allocator;

/// The same field of channels that stand in a row.
#[derive(Clone, Copy)]
pub struct Column {
    /// The number of the first of the channels.
    pub first: usize,
    /// How many channels there are.
    pub channels: usize,
    /// The place of the field, from 0.
    pub field: usize,
}

impl<A: Allocator + Copy> KnownKinds<A> {
    /// Takes up the nametype of this number with its set, if no name in the set is refused. `NoKinds` where no kinds
    /// fit the sets up to it, and `Memory` where there is no room; then this is of no more use.
    pub fn add_nametype(
        &mut self,
        alloc: A,
        types: &TypeTable<A>,
        nametype: usize,
        set: Option<&Expr<A>>,
    ) -> Result<(), Misfit>
        requires { HasResolvedKinds self.old }
        ensures { FitsNametype (table_of types.now) nametype (lent_expression set.entry) self.old
            self.new result }
    {
        let Some(set) = set else {
            return Ok(());
        };
        let Some(members) = number_at(&self.numbering.nametypes, nametype) else {
            return Err(Misfit::NoKinds);
        };
        self.solve_set(alloc, types, set, members)
    }

    /// Solves the equations for a set whose members have the kind of the number.
    fn solve_set(
        &mut self,
        alloc: A,
        types: &TypeTable<A>,
        set: &Expr<A>,
        members: KindNumber,
    ) -> Result<(), Misfit>
        requires { HasResolvedKinds self.old }
        ensures { SolvedForSet (table_of types.now) (expression_of set.now) members.0 self.old
            self.new result }
    {
        self.equations.forget();
        self.equations
            .ask_set(types, &self.numbering, set, members)?;
        self.equations.solve(alloc)
    }

    /// Takes up the field at this place of the constructor of this number with its set, if no name in the set is
    /// refused. `NoKinds` where no kinds fit the sets up to it, and `Memory` where there is no room; then this is of no
    /// more use.
    pub fn add_clause_field(
        &mut self,
        alloc: A,
        types: &TypeTable<A>,
        constructor: usize,
        field: usize,
        set: Option<&Expr<A>>,
    ) -> Result<(), Misfit>
        requires { HasResolvedKinds self.old }
        ensures { FitsClauseField (table_of types.now) constructor field (lent_expression set.entry)
            self.old self.new result }
    {
        let Some(set) = set else {
            return Ok(());
        };
        let Some(numbers) = self.numbering.constructors.get(constructor) else {
            return Err(Misfit::NoKinds);
        };
        let Some(members) = number_at(numbers, field) else {
            return Err(Misfit::NoKinds);
        };
        self.solve_set(alloc, types, set, members)
    }

    /// Takes up a field of channels with its set, if no name in the set is refused. `NoKinds` where no kinds fit the
    /// sets up to it, and `Memory` where there is no room; then this is of no more use.
    pub fn add_field(
        &mut self,
        alloc: A,
        types: &TypeTable<A>,
        column: Column,
        set: Option<&Expr<A>>,
    ) -> Result<(), Misfit>
        requires { HasResolvedKinds self.old }
        ensures { FitsField (table_of types.now) column (lent_expression set.entry) self.old
            self.new result }
    {
        let Some(set) = set else {
            return Ok(());
        };
        let Some(members) = numbers_in(alloc, &self.numbering.channels, column)? else {
            return Err(Misfit::NoKinds);
        };
        self.solve_copies(alloc, types, set, &members)
    }

    /// Solves the equations for a set that several channels have for a field, each with a number of its own.
    fn solve_copies(
        &mut self,
        alloc: A,
        types: &TypeTable<A>,
        set: &Expr<A>,
        members: &[KindNumber],
    ) -> Result<(), Misfit>
        requires { HasResolvedKinds self.old }
        ensures { SolvedForCopies (table_of types.now) (expression_of set.now)
            (row_numbers members.now) self.old self.new result }
    {
        self.equations.forget();
        self.equations
            .ask_copies(types, &self.numbering, set, members)?;
        self.equations.solve(alloc)
    }
}

/// The numbers of the column, if there are its channels and each of them has the field.
fn numbers_in<A: Allocator + Copy>(
    alloc: A,
    channels: &[Vec<KindNumber, A>],
    column: Column,
) -> Result<Option<Vec<KindNumber, A>>, Memory>
    ensures { IfOk result (IsColumnFound column channels.now) }
{
    if channels.len() < column.first {
        return Ok(None);
    }
    let (_, behind) = channels.split_at(column.first);
    if behind.len() < column.channels {
        return Ok(None);
    }
    let (rows, _) = behind.split_at(column.channels);
    numbers_of_field(alloc, rows, column.field)
}

/// The numbers of the field in these rows, if each of them has it.
fn numbers_of_field<A: Allocator + Copy>(
    alloc: A,
    rows: &[Vec<KindNumber, A>],
    field: usize,
) -> Result<Option<Vec<KindNumber, A>>, Memory>
    ensures { IfOk result (IsFound field (number_rows rows.now)) }
{
    let mut numbers = Vec::new(alloc);
    for row in rows {
        let Some(number) = number_at(row, field) else {
            return Ok(None);
        };
        numbers.push(number)?;
    }
    Ok(Some(numbers))
}

/// The number at the place of the row, if the row is so long.
fn number_at(row: &[KindNumber], place: usize) -> Option<KindNumber>
    ensures { result ≡ slice_get row.now place }
{
    row.get(place).copied()
}
