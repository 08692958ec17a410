//! The second pass: the sites of a tree in turn, and the equations and assertions that are made at them.

ghost use Rattle.std.specs.Prelude.{IfErr, IfOk};
ghost use Rattle.theory_checking.specs.Sites.{sites};
ghost use Rattle.csp_names.specs.FirstPass.{AreNamesOf};
ghost use Rattle.csp_names.specs.Walks.{Stops};
ghost use Rattle.csp_parse.specs.Declarations.{declaration_of, script_of};
ghost use Rattle.csp_kinds.specs.Sets.{AreSetsOf};
ghost use Rattle.csp_kinds.specs.Items.{AddsItem, AreItemsOf};

use crate::set_refusals::pass_sets;
use crate::sets::Sets;
use csp_names::{BoundNames, Names, Refused, Scope};
use csp_parse::{Declaration, Raw};
use csp_term::{Assertion, Equation};
use std::alloc::Allocator;

/// The equations and the assertions of some declarations, each in the order of the text.
#[derive(Drop)]
pub(crate) struct Items<A: Allocator> {
    pub(crate) equations: Vec<Equation<A>, A>,
    pub(crate) assertions: Vec<Assertion<A>, A>,
}

/// The equations and assertions of the tree, or the first of its sites that is refused.
pub(crate) fn resolve_items<'t, A: Allocator + Copy>(
    alloc: A,
    raw: &Raw<'t, A>,
    names: &Names<'t, A>,
    sets: &Sets<A>,
) -> Result<Items<A>, Refused>
    requires names { AreNamesOf names.now (script_of raw.now) }
    requires sets { AreSetsOf (script_of raw.now) sets.now }
    ensures items { IfOk result (AreItemsOf (script_of raw.now) (script_of raw.now)) }
    ensures refusal { IfErr result (Stops (sites (script_of raw.now))) }
{
    let scope = Scope::new(names, names.len(), &sets.channels);
    let mut bound = BoundNames::new(alloc);
    let mut items = Items {
        equations: Vec::new(alloc),
        assertions: Vec::new(alloc),
    };
    for (number, declaration) in raw.declarations.iter().enumerate() {
        pass_sets(sets.refused, number)?;
        items.add(alloc, &scope, &mut bound, declaration)?;
    }
    Ok(items)
}

impl<A: Allocator + Copy> Items<A> {
    /// Adds the equation or assertion that the declaration is, if it is one.
    fn add<'t>(
        &mut self,
        alloc: A,
        scope: &Scope<'_, 't, A>,
        bound: &mut BoundNames<'t, A>,
        declaration: &Declaration<'t, A>,
    ) -> Result<(), Refused>
        ensures { AddsItem scope.now bound.old bound.new (declaration_of declaration.now) self.old
            self.new result }
    {
        match declaration {
            Declaration::Equation {
                parameters,
                body,
                ..
            } => {
                let equation = scope.resolve_definition(alloc, bound, parameters, body)?;
                self.equations.push(equation)?;
                Ok(())
            }
            Declaration::Assertion {
                negated,
                property,
                implementation,
                ..
            } => {
                let assertion = scope.resolve_assertion(
                    alloc,
                    bound,
                    *negated,
                    property,
                    implementation,
                )?;
                self.assertions.push(assertion)?;
                Ok(())
            }
            Declaration::Datatype { .. }
            | Declaration::Nametype { .. }
            | Declaration::Channels { .. } => Ok(()),
        }
    }
}
