//! The pass over the declarations.

ghost use Rattle.std.specs.Prelude.{◌≡◌, OnOk, map};
ghost use Rattle.theory_text.specs.Raw.{RawChannels, RawDatatype, RawNametype, RawName, RawScript};
ghost use Rattle.csp_parse.specs.Declarations.{clause_of, declaration_of, domain_of};
ghost use Rattle.csp_parse.specs.Names.{name_of};
ghost use Rattle.csp_kinds.specs.Fit.{IsOpen};
ghost use Rattle.csp_kinds.specs.Pass.{AreSetsSoFar, HasNext, HasNextDatatype, TakesUp, first_refusal};
ghost use Rattle.csp_kinds.specs.Sets.{AreSetsOf};

use crate::channels::Channels;
use crate::clauses::look_at_clauses;
use crate::faults::{SetFault, first_of};
use crate::fields::look_at_fields;
use crate::fit::Fit;
use crate::looking::Above;
use crate::sets::{RefusedSet, Sets};
use crate::table::Table;
use csp_names::Names;
use csp_parse::{Clause, Declaration, Domain, Name};
use csp_value::Memory;
use std::alloc::Allocator;

/// Where a declaration stands.
#[derive(Clone, Copy)]
pub(crate) struct Position<'s, 't, A: Allocator> {
    pub(crate) names: &'s Names<'t, A>,
    /// How many declarations stand above it.
    pub(crate) passed: usize,
    /// How many names these declare.
    pub(crate) visible: usize,
}

/// The sets of the declarations so far.
#[derive(Drop)]
pub(crate) struct SetsSoFar<A: Allocator> {
    pub(crate) table: Table<A>,
    pub(crate) fit: Fit<A>,
    pub(crate) channels: Channels<A>,
    /// The first declaration of sets that is refused.
    pub(crate) refused: Option<RefusedSet>,
}

impl<A: Allocator + Copy> SetsSoFar<A> {
    /// The sets, once all declarations are taken up.
    pub(crate) fn into_sets(self) -> Sets<A>
        ensures { (raw : RawScript) → AreSetsSoFar raw raw self → AreSetsOf raw result }
    {
        let SetsSoFar {
            table,
            fit,
            channels,
            refused,
        } = self;
        let Table { types, .. } = table;
        let Channels { field_sets, .. } = channels;
        let Fit { known, .. } = fit;
        Sets {
            types,
            channels: field_sets,
            known,
            refused,
        }
    }

    /// Takes up the declaration.
    pub(crate) fn add<'t>(
        &mut self,
        alloc: A,
        at: &Position<'_, 't, A>,
        declaration: &Declaration<'t, A>,
    ) -> Result<(), Memory>
        requires { HasNext at.now self.old (declaration_of declaration.now) }
        ensures { OnOk result (TakesUp at.now (declaration_of declaration.now) self.old self.new) }
    {
        match declaration {
            Declaration::Nametype { domain, .. } => self.add_nametype(alloc, at, domain),
            Declaration::Channels { names, domains } => {
                self.add_channels(alloc, at, names, domains)
            }
            Declaration::Datatype { clauses, .. } => self.add_datatype(alloc, at, clauses),
            Declaration::Equation { .. } => Ok(()),
            Declaration::Assertion { .. } => Ok(()),
        }
    }

    /// Takes up a datatype with these clauses, whose constructors can be used only below it.
    fn add_datatype<'t>(
        &mut self,
        alloc: A,
        at: &Position<'_, 't, A>,
        clauses: &[Clause<'t, A>],
    ) -> Result<(), Memory>
        requires { HasNextDatatype at.now self.old (map clause_of clauses.now) }
        ensures { OnOk result ((name : RawName) → TakesUp at.now
            (RawDatatype name (map clause_of clauses.now)) self.old self.new) }
    {
        let above = Above {
            names: at.names,
            visible: at.visible,
            table: &self.table,
        };
        let looked = look_at_clauses(alloc, &above, &mut self.fit, clauses)?;
        self.refused = first_refusal(self.refused, at.passed, looked.fault);
        self.table.push_constructors(alloc, looked.sets)
    }

    /// Takes up a nametype with this set.
    fn add_nametype<'t>(
        &mut self,
        alloc: A,
        at: &Position<'_, 't, A>,
        domain: &Domain<'t, A>,
    ) -> Result<(), Memory>
        requires { IsOpen self.old.fit }
        ensures { OnOk result ((name : RawName) → TakesUp at.now
            (RawNametype name (domain_of domain.now)) self.old self.new) }
    {
        let above = Above {
            names: at.names,
            visible: at.visible,
            table: &self.table,
        };
        let looked = above.look(alloc, &domain.set)?;
        let number = self.table.types.nametypes.len();
        self.fit
            .add_nametype(alloc, &self.table.types, number, looked.expression())?;
        let fault = looked.fault(domain.place, self.fit.some, looked.has_value());
        self.refused = first_refusal(self.refused, at.passed, fault);
        self.table.push(alloc, looked.into_members())
    }

    /// Takes up channels with these fields.
    fn add_channels<'t>(
        &mut self,
        alloc: A,
        at: &Position<'_, 't, A>,
        names: &[Name<'t>],
        domains: &[Domain<'t, A>],
    ) -> Result<(), Memory>
        requires { HasNext at.now self.old
            (RawChannels (map name_of names.now) (map domain_of domains.now)) }
        ensures { OnOk result (TakesUp at.now
            (RawChannels (map name_of names.now) (map domain_of domains.now)) self.old self.new) }
    {
        let above = Above {
            names: at.names,
            visible: at.visible,
            table: &self.table,
        };
        let first = self.channels.field_sets.len();
        let fields = look_at_fields(alloc, &above, &mut self.fit, first, names.len(), domains)?;
        let fault = fields.fault;
        let sets = fields.into_sets(self.fit.some);
        let head = self.channels.add(alloc, names, &sets)?;
        self.refused = first_refusal(self.refused, at.passed, first_of(head, fault));
        Ok(())
    }
}

/// The first refusal, where a declaration that stands below so many others has this fault.
fn first_refusal(
    refused: Option<RefusedSet>,
    declaration: usize,
    fault: Option<SetFault>,
) -> Option<RefusedSet>
    ensures { result ≡ first_refusal refused declaration fault }
{
    match (refused, fault) {
        (Some(refused), _) => Some(refused),
        (None, Some(SetFault { fault, place })) => Some(RefusedSet {
            declaration,
            fault,
            place,
        }),
        (None, None) => None,
    }
}
