//! The equations and assertions of a tree, in the order of the text.

ghost use Rattle.std.specs.Prelude.{◌≡◌, ◌≤◌, IfOk, OnOk, length, map};
ghost use Rattle.theory_checking.specs.Fitting.{item_place};
ghost use Rattle.csp_lex.specs.Places.{place_of};
ghost use Rattle.csp_parse.specs.Declarations.{declaration_of};

use csp_lex::Place;
use csp_parse::Declaration;
use csp_value::Memory;
use std::alloc::Allocator;

/// An equation or an assertion, by its number, with the place of its first token.
#[derive(Clone, Copy)]
pub(crate) enum Item {
    Equation { place: Place, number: usize },
    Assertion { place: Place, number: usize },
}

impl Item {
    ghost use Rattle.csp_inference.specs.Items.{item_of};

    /// The place of its first token.
    pub(crate) fn place(self) -> Place
        ensures { place_of result ≡ item_place (item_of self) }
    {
        match self {
            Item::Equation { place, .. } | Item::Assertion { place, .. } => place,
        }
    }
}

/// The items of some declarations, and how many of each sort there are.
#[derive(Drop)]
pub(crate) struct ItemList<A: Allocator> {
    pub(crate) items: Vec<Item, A>,
    equations: usize,
    assertions: usize,
    ghost equations_listed: { equations ≤ length items.items },
    ghost assertions_listed: { assertions ≤ length items.items },
}

impl<A: Allocator + Copy> ItemList<A> {
    ghost use Rattle.csp_inference.specs.Items.{AddsAssertion, AddsEquation, AddsItems, AreItemsOf};

    /// The items of the declarations, or `Memory` where there is no room for them.
    pub(crate) fn of(alloc: A, declarations: &[Declaration<'_, A>]) -> Result<ItemList<A>, Memory>
        ensures { IfOk result (AreItemsOf (map declaration_of declarations.now)) }
    {
        let mut list = ItemList {
            items: Vec::new(alloc),
            equations: 0,
            assertions: 0,
        };
        for declaration in declarations {
            list.add(declaration)?;
        }
        Ok(list)
    }

    fn add(&mut self, declaration: &Declaration<'_, A>) -> Result<(), Memory>
        ensures { OnOk result (AddsItems (declaration_of declaration.now) self.old self.new) }
    {
        match declaration {
            Declaration::Equation { name, .. } => self.add_equation(name.place),
            Declaration::Assertion { place, .. } => self.add_assertion(*place),
            _ => Ok(()),
        }
    }

    fn add_equation(&mut self, place: Place) -> Result<(), Memory>
        ensures { OnOk result (AddsEquation place self.old self.new) }
    {
        let number = self.equations;
        self.items.push(Item::Equation { place, number })?;
        self.equations += 1;
        Ok(())
    }

    fn add_assertion(&mut self, place: Place) -> Result<(), Memory>
        ensures { OnOk result (AddsAssertion place self.old self.new) }
    {
        let number = self.assertions;
        self.items.push(Item::Assertion { place, number })?;
        self.assertions += 1;
        Ok(())
    }
}
