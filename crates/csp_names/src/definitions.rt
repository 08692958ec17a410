//! Equations and assertions.

ghost use Rattle.std.specs.Prelude.{◌≡◌, map, IfErr, OnOk};
ghost use Rattle.theory_checking.specs.Names.{spellings};
ghost use Rattle.csp_parse.specs.Declarations.{property_of};
ghost use Rattle.csp_parse.specs.Names.{name_of};
ghost use Rattle.csp_parse.specs.Processes.{process_of};
ghost use Rattle.csp_names.specs.declared.refusals.Refused.TheVariants.{Memory as no_room};
ghost use Rattle.csp_names.specs.Scopes.{IsInOrder, Releases};
ghost use Rattle.csp_names.specs.Walks.{BindsParameter, BindsParameters, ResolvesAssertion, ResolvesDefinition, ResolvesProperty};

use crate::bound_names::BoundNames;
use crate::refusals::{KindFault, Refused};
use crate::scope::Scope;
use csp_expression::Name;
use csp_parse::{Name as RawName, Process as RawProcess, Property as RawProperty};
use csp_term::{Assertion, Equation, Property};
use std::alloc::Allocator;

impl<'n, 't, A: Allocator + Copy> Scope<'n, 't, A> {
    /// The equation with these parameters and this body, or the first fault of a name in it.
    pub fn resolve_definition(
        &self,
        alloc: A,
        bound: &mut BoundNames<'t, A>,
        parameters: &[RawName<'t>],
        body: &RawProcess<'t, A>,
    ) -> Result<Equation<A>, Refused>
        ensures { ResolvesDefinition self.now bound.old bound.new (map name_of parameters.now)
            (process_of body.now) result }
    {
        let names = self.resolve_parameters(alloc, bound, parameters)?;
        let body = self.resolve_process(alloc, bound, body)?;
        release_parameters(bound, parameters)?;
        Ok(Equation {
            parameters: names,
            body,
        })
    }

    /// The assertion that asks this of a process, or the first fault of a name in it.
    pub fn resolve_assertion(
        &self,
        alloc: A,
        bound: &mut BoundNames<'t, A>,
        negated: bool,
        property: &RawProperty<'t, A>,
        implementation: &RawProcess<'t, A>,
    ) -> Result<Assertion<A>, Refused>
        ensures { ResolvesAssertion self.now bound.old bound.new negated (property_of property.now)
            (process_of implementation.now) result }
    {
        let property = self.resolve_property(alloc, bound, property)?;
        let implementation = self.resolve_process(alloc, bound, implementation)?;
        Ok(Assertion {
            negated,
            property,
            implementation,
        })
    }

    /// What an assertion asks, or the first fault of a name in it.
    fn resolve_property(
        &self,
        alloc: A,
        bound: &mut BoundNames<'t, A>,
        property: &RawProperty<'t, A>,
    ) -> Result<Property<A>, Refused>
        ensures { ResolvesProperty self.now bound.old bound.new (property_of property.now) result }
    {
        match property {
            RawProperty::Refinement {
                model,
                specification,
            } => {
                let specification = self.resolve_process(alloc, bound, specification)?;
                Ok(Property::Refinement {
                    model: *model,
                    specification,
                })
            }
            RawProperty::DeadlockFree => Ok(Property::DeadlockFree),
            RawProperty::DivergenceFree => Ok(Property::DivergenceFree),
        }
    }

    fn resolve_parameters(
        &self,
        alloc: A,
        bound: &mut BoundNames<'t, A>,
        parameters: &[RawName<'t>],
    ) -> Result<Vec<Name, A>, Refused>
        ensures { BindsParameters self.now bound.old bound.new (map name_of parameters.now) result }
    {
        let mut names = Vec::new(alloc);
        for parameter in parameters {
            let name = self.bind_parameter(bound, *parameter)?;
            names.push(name)?;
        }
        Ok(names)
    }

    /// Binds a parameter, which may be neither a declared name nor one of those of its head before it.
    fn bind_parameter(
        &self,
        bound: &mut BoundNames<'t, A>,
        name: RawName<'t>,
    ) -> Result<Name, Refused>
        ensures { BindsParameter self.now bound.old bound.new (name_of name.entry) result }
    {
        if bound.is_bound(name) || self.names.find(name, self.visible).is_some() {
            Err(Refused::at(KindFault::DeclaredTwice, name.place))
        } else {
            bound.bind(name)
        }
    }
}

/// Ends the bindings of the parameters. It is `Memory` where there is no room for the table.
fn release_parameters<'t, A: Allocator + Copy>(
    bound: &mut BoundNames<'t, A>,
    parameters: &[RawName<'t>],
) -> Result<(), Refused>
    ensures releases { OnOk result (IsInOrder bound.old
        → Releases bound.old bound.new (spellings (map name_of parameters.now))) }
    ensures stops { IfErr result (λ refused. refused ≡ no_room) }
{
    for parameter in parameters {
        bound.release(*parameter)?;
    }
    Ok(())
}
