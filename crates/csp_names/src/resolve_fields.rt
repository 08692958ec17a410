//! The fields of prefixes, and the names that they bind.

ghost use Rattle.std.specs.Prelude.{◌≡◌, ◌∷◌, [], map, IfErr, OnOk};
ghost use Rattle.theory_checking.specs.Names.{bound_by_fields, spellings};
ghost use Rattle.csp_parse.specs.Names.{name_of};
ghost use Rattle.csp_parse.specs.Processes.{field_of};
ghost use Rattle.csp_names.specs.declared.refusals.Refused.TheVariants.{Memory as no_room};
ghost use Rattle.csp_names.specs.Scopes.{IsInOrder, Releases};
ghost use Rattle.csp_names.specs.Walks.{BindsField, BindsFields, BindsName, ChecksUndeclared};

use crate::bound_names::BoundNames;
use crate::refusals::{KindFault, Refused};
use crate::scope::Scope;
use csp_expression::Name;
use csp_parse::{Field as RawField, Name as RawName};
use csp_term::Field;
use std::alloc::Allocator;

impl<'n, 't, A: Allocator + Copy> Scope<'n, 't, A> {
    /// The fields that are written, whose inputs are bound from then on, or the first fault of a name in them.
    pub(crate) fn resolve_fields(
        &self,
        alloc: A,
        bound: &mut BoundNames<'t, A>,
        fields: &[RawField<'t, A>],
    ) -> Result<Vec<Field<A>, A>, Refused>
        ensures { BindsFields self.now bound.old bound.new (map field_of fields.now) result }
    {
        let mut resolved = Vec::new(alloc);
        for field in fields {
            let one = self.resolve_field(alloc, bound, field)?;
            resolved.push(one)?;
        }
        Ok(resolved)
    }

    /// One field. The set of an input stands outside the scope of its name.
    fn resolve_field(
        &self,
        alloc: A,
        bound: &mut BoundNames<'t, A>,
        field: &RawField<'t, A>,
    ) -> Result<Field<A>, Refused>
        ensures { BindsField self.now bound.old bound.new (field_of field.now) result }
    {
        match field {
            RawField::Given(value) => {
                let value = self.resolve_expression(alloc, bound, value)?;
                Ok(Field::Given(value))
            }
            RawField::Input(name) => {
                let name = self.bind(bound, *name)?;
                Ok(Field::Input(name))
            }
            RawField::InputFrom(name, set) => {
                self.check_undeclared(*name)?;
                let set = self.resolve_expression(alloc, bound, set)?;
                let name = bound.bind(*name)?;
                Ok(Field::InputFrom(name, set))
            }
        }
    }

    /// Binds a name, which may not be a declared one.
    pub(crate) fn bind(
        &self,
        bound: &mut BoundNames<'t, A>,
        name: RawName<'t>,
    ) -> Result<Name, Refused>
        ensures { BindsName self.now bound.old bound.new (name_of name.entry) result }
    {
        self.check_undeclared(name)?;
        bound.bind(name)
    }

    /// The name is not a declared one, or that is its fault.
    pub(crate) fn check_undeclared(&self, name: RawName<'t>) -> Result<(), Refused>
        ensures { ChecksUndeclared self.now (name_of name.entry) result }
    {
        match self.names.find(name, self.visible) {
            Some(_) => Err(Refused::at(KindFault::DeclaredTwice, name.place)),
            None => Ok(()),
        }
    }
}

/// Ends the bindings of the fields' inputs. It is `Memory` where there is no room for the table.
pub(crate) fn release_fields<'t, A: Allocator + Copy>(
    bound: &mut BoundNames<'t, A>,
    fields: &[RawField<'t, A>],
) -> Result<(), Refused>
    ensures releases { OnOk result (IsInOrder bound.old
        → Releases bound.old bound.new (spellings (bound_by_fields (map field_of fields.now)))) }
    ensures stops { IfErr result (λ refused. refused ≡ no_room) }
{
    for field in fields {
        release_field(bound, field)?;
    }
    Ok(())
}

fn release_field<'t, A: Allocator + Copy>(
    bound: &mut BoundNames<'t, A>,
    field: &RawField<'t, A>,
) -> Result<(), Refused>
    ensures releases { OnOk result (IsInOrder bound.old
        → Releases bound.old bound.new (spellings (bound_by_fields (field_of field.now ∷ [])))) }
    ensures stops { IfErr result (λ refused. refused ≡ no_room) }
{
    match field {
        RawField::Given(_) => Ok(()),
        RawField::Input(name) => bound.release(*name),
        RawField::InputFrom(name, _) => bound.release(*name),
    }
}
