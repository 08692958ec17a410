//! The fields of a constructor, or of channels that are declared together.

ghost use Rattle.std.specs.Prelude.{◌≡◌, IfOk, None, OnOk, cond, map, option_map, option_and_then};
ghost use Rattle.std.specs.Option.{option_or};
ghost use Rattle.theory_syntax.specs.Value.{sorted_values};
ghost use Rattle.theory_checking.specs.Sets.{with_some};
ghost use Rattle.csp_lex.specs.Places.{place_of};
ghost use Rattle.csp_parse.specs.Declarations.{domain_of};
ghost use Rattle.csp_expression.specs.Evaluation.{members_listed};
ghost use Rattle.csp_value.specs.Fields.{field_values};
ghost use Rattle.csp_kinds.specs.Fields.{AddsClauseField, AddsField, IsNextClause, IsNextOf, LooksAtClause, LooksAtFields, TakesSet, Pushes, known_fields};
ghost use Rattle.csp_kinds.specs.Fit.{IsOpen};
ghost use Rattle.csp_kinds.specs.Looking.{fault_in, looked_members};
ghost use Rattle.csp_names.specs.Scopes.{known_sets};

use crate::faults::{SetFault, first_of};
use crate::fit::Fit;
use crate::looking::{Above, LookedSet};
use csp_inference::Column;
use csp_lex::Place;
use csp_parse::Domain;
use csp_value::{FieldSet, Memory, SetOf, copy_values};
use std::alloc::Allocator;

/// The fields of a constructor or of channels that were looked at so far.
#[derive(Drop)]
pub(crate) struct Fields<A: Allocator> {
    /// The sets that have a member.
    pub(crate) sets: Vec<FieldSet<A>, A>,
    /// Whether the set of each field so far is one of these.
    pub(crate) complete: bool,
    /// The first fault.
    pub(crate) fault: Option<SetFault>,
}

/// Looks at the fields of so many channels, of which the first has this number.
pub(crate) fn look_at_fields<'t, A: Allocator + Copy>(
    alloc: A,
    above: &Above<'_, 't, A>,
    fit: &mut Fit<A>,
    first: usize,
    channels: usize,
    domains: &[Domain<'t, A>],
) -> Result<Fields<A>, Memory>
    requires { IsNextOf above.now fit.old first channels (map domain_of domains.now) }
    ensures { IfOk result (LooksAtFields above.now fit.old first channels
        (map domain_of domains.now) fit.new) }
{
    let mut fields = Fields {
        sets: Vec::new(alloc),
        complete: true,
        fault: None,
    };
    for field in 0..domains.len() {
        let column = Column {
            first,
            channels,
            field,
        };
        fields.add(alloc, above, fit, column, &domains[field])?;
    }
    Ok(fields)
}

/// Looks at the fields of the constructor of this number.
pub(crate) fn look_at_clause<'t, A: Allocator + Copy>(
    alloc: A,
    above: &Above<'_, 't, A>,
    fit: &mut Fit<A>,
    constructor: usize,
    domains: &[Domain<'t, A>],
) -> Result<Fields<A>, Memory>
    requires { IsNextClause above.now fit.old constructor (map domain_of domains.now) }
    ensures { IfOk result (LooksAtClause above.now fit.old constructor (map domain_of domains.now)
        fit.new) }
{
    let mut fields = Fields {
        sets: Vec::new(alloc),
        complete: true,
        fault: None,
    };
    for field in 0..domains.len() {
        fields.add_of_clause(alloc, above, fit, constructor, field, &domains[field])?;
    }
    Ok(fields)
}

impl<A: Allocator + Copy> Fields<A> {
    /// Looks at the next field of channels.
    fn add<'t>(
        &mut self,
        alloc: A,
        above: &Above<'_, 't, A>,
        fit: &mut Fit<A>,
        column: Column,
        domain: &Domain<'t, A>,
    ) -> Result<(), Memory>
        requires { IsOpen fit.old }
        ensures { OnOk result (AddsField above.now column (domain_of domain.now) self.old fit.old
            self.new fit.new) }
    {
        let looked = above.look(alloc, &domain.set)?;
        fit.add_field(alloc, &above.table.types, column, looked.expression())?;
        self.take(alloc, &looked, domain.place, fit.some)
    }

    /// Looks at the next field of a constructor.
    fn add_of_clause<'t>(
        &mut self,
        alloc: A,
        above: &Above<'_, 't, A>,
        fit: &mut Fit<A>,
        constructor: usize,
        field: usize,
        domain: &Domain<'t, A>,
    ) -> Result<(), Memory>
        requires { IsOpen fit.old }
        ensures { OnOk result (AddsClauseField above.now constructor field (domain_of domain.now)
            self.old fit.old self.new fit.new) }
    {
        let looked = above.look(alloc, &domain.set)?;
        fit.add_clause_field(
            alloc,
            &above.table.types,
            constructor,
            field,
            looked.expression(),
        )?;
        self.take(alloc, &looked, domain.place, fit.some)
    }

    /// Takes up what was looked at, whose first token is at the place, as the set of a field.
    fn take(
        &mut self,
        alloc: A,
        looked: &LookedSet<A>,
        place: Place,
        fits: bool,
    ) -> Result<(), Memory>
        ensures { OnOk result (TakesSet looked.now (place_of place) fits self.old self.new) }
    {
        let set = field_set(alloc, looked)?;
        let fault = looked.fault(place, fits, set.is_some());
        self.push(set, fault)
    }

    /// Adds a field with this set, if it has a member, and this fault.
    fn push(&mut self, set: Option<FieldSet<A>>, fault: Option<SetFault>) -> Result<(), Memory>
        ensures first { OnOk result (fault_in self.new.fault
            ≡ option_or (fault_in self.old.fault) (fault_in fault)) }
        ensures pushed { OnOk result (Pushes set self.old self.new) }
    {
        self.fault = first_of(self.fault, fault);
        match set {
            Some(set) => self.sets.push(set)?,
            None => self.complete = false,
        }
        Ok(())
    }

    /// The sets of all fields, if each has a member and kinds fit them.
    pub(crate) fn into_sets(self, fits: bool) -> Option<Vec<FieldSet<A>, A>>
        ensures { known_sets result ≡ cond fits (known_fields self) None }
    {
        if fits && self.complete {
            Some(self.sets)
        } else {
            None
        }
    }
}

/// The set of a field, if it has a member.
fn field_set<A: Allocator + Copy>(
    alloc: A,
    looked: &LookedSet<A>,
) -> Result<Option<FieldSet<A>>, Memory>
    ensures { IfOk result (λ found. option_map field_values found
        ≡ option_map sorted_values (option_and_then with_some (looked_members looked.now))) }
{
    match looked {
        LookedSet::Set {
            members: Some(members),
            ..
        } => field_set_of(alloc, members),
        _ => Ok(None),
    }
}

/// The set of a field with these members, if there is one.
fn field_set_of<A: Allocator + Copy>(
    alloc: A,
    members: &SetOf<A>,
) -> Result<Option<FieldSet<A>>, Memory>
    ensures { IfOk result (λ found. option_map field_values found
        ≡ option_map sorted_values (with_some (members_listed members.now))) }
{
    let values = members.members();
    if values.is_empty() {
        return Ok(None);
    }
    let values = copy_values(alloc, values)?;
    Ok(Some(FieldSet::from_values(values)))
}
