//! How many constructors, nametypes, fields and parameters a tree has.

ghost use Rattle.std.specs.Prelude.{◌≡◌, IfOk, OnOk, length, map};
ghost use Rattle.theory_checking.specs.Sets.{nametype_sets};
ghost use Rattle.csp_parse.specs.Declarations.{clause_of, declaration_of};
ghost use Rattle.csp_inference.specs.Counts.{AddsClauses, AddsCounts, AreCountsOf, nametypes_counted};

use crate::copies::push_copies;
use csp_parse::{Clause, Declaration};
use csp_value::Memory;
use std::alloc::Allocator;

/// How many parts of a tree, its nametypes aside, have kinds or are of a datatype.
#[derive(Drop)]
pub(crate) struct Counts<A: Allocator> {
    /// The constructors of each datatype.
    pub(crate) constructors: Vec<usize, A>,
    /// The fields of each constructor.
    pub(crate) constructor_fields: Vec<usize, A>,
    /// The fields of each channel.
    pub(crate) fields: Vec<usize, A>,
    /// The parameters of each equation.
    pub(crate) parameters: Vec<usize, A>,
}

impl<A: Allocator + Copy> Counts<A> {
    /// The counts of the declarations, or `Memory` where there is no room for them.
    pub(crate) fn of(alloc: A, declarations: &[Declaration<'_, A>]) -> Result<Counts<A>, Memory>
        ensures { IfOk result (AreCountsOf (map declaration_of declarations.now)) }
    {
        let mut counts = Counts {
            constructors: Vec::new(alloc),
            constructor_fields: Vec::new(alloc),
            fields: Vec::new(alloc),
            parameters: Vec::new(alloc),
        };
        for declaration in declarations {
            counts.add(declaration)?;
        }
        Ok(counts)
    }

    fn add(&mut self, declaration: &Declaration<'_, A>) -> Result<(), Memory>
        ensures { OnOk result (AddsCounts (declaration_of declaration.now) self.old self.new) }
    {
        match declaration {
            Declaration::Datatype { clauses, .. } => {
                self.constructors.push(clauses.len())?;
                self.add_clauses(clauses)
            }
            Declaration::Channels { names, domains } => {
                push_copies(&mut self.fields, names.len(), domains.len())
            }
            Declaration::Equation { parameters, .. } => {
                self.parameters.push(parameters.len())?;
                Ok(())
            }
            Declaration::Nametype { .. } | Declaration::Assertion { .. } => Ok(()),
        }
    }

    fn add_clauses(&mut self, clauses: &[Clause<'_, A>]) -> Result<(), Memory>
        ensures { OnOk result (AddsClauses (map clause_of clauses.now) self.old self.new) }
    {
        for clause in clauses {
            self.constructor_fields.push(clause.fields.len())?;
        }
        Ok(())
    }
}

/// How many nametypes the declarations declare.
pub(crate) fn nametype_count<A: Allocator>(declarations: &[Declaration<'_, A>]) -> usize
    ensures { result ≡ length (nametype_sets (map declaration_of declarations.now)) }
{
    let mut count = 0;
    for declaration in declarations {
        count += nametypes_in(declaration);
    }
    count
}

/// One where the declaration declares a nametype.
fn nametypes_in<A: Allocator>(declaration: &Declaration<'_, A>) -> usize
    ensures { result ≡ nametypes_counted (declaration_of declaration.now) }
{
    match declaration {
        Declaration::Nametype { .. } => 1,
        Declaration::Datatype { .. }
        | Declaration::Channels { .. }
        | Declaration::Equation { .. }
        | Declaration::Assertion { .. } => 0,
    }
}
