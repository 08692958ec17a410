//! Whether kinds fit the equations and assertions of a script.

ghost use Rattle.theory_checking.specs.Scripts.{IsScriptOf};
ghost use Rattle.csp_inference.specs.Numbering.{numbering_of};
ghost use Rattle.csp_parse.specs.Declarations as tree;
ghost use Rattle.csp_term.specs.Script.{script_of_parts};
ghost use Rattle.csp_inference.specs.Items.{AsksForItem, FitsItemAt, FitsItems, SolvedForItem, item_of};
ghost use Rattle.csp_inference.specs.KnownKinds.{HasResolvedKinds, KnowsKinds};

use crate::equations::Equations;
use crate::fit_fault::FitFault;
use crate::item_list::{Item, ItemList};
use crate::known_kinds::KnownKinds;
use crate::misfit::Misfit;
use crate::numbering::Numbering;
use csp_parse::Raw;
use csp_term::ScriptParts;
use std::alloc::Allocator;

impl<A: Allocator + Copy> KnownKinds<A> {
    /// Takes up the equations and assertions of the tree's script, once all sets are. `WrongKind` at the first one that
    /// no kinds fit, with those before it and the sets, and `Memory` where there is no room; then this is of no more
    /// use.
    pub fn fit_items(
        &mut self,
        alloc: A,
        raw: &Raw<'_, A>,
        script: &ScriptParts<A>,
    ) -> Result<(), FitFault>
        requires known { KnowsKinds (tree.script_of raw.now) (tree.script_of raw.now) self.old }
        requires script { IsScriptOf (tree.script_of raw.now) (script_of_parts script.now) }
        ensures { FitsItems (tree.script_of raw.now) (script_of_parts script.now) result }
    {
        let list = ItemList::of(alloc, &raw.declarations)?;
        for item in &list.items {
            self.fit_item(alloc, script, *item)?;
        }
        Ok(())
    }

    fn fit_item(&mut self, alloc: A, script: &ScriptParts<A>, item: Item) -> Result<(), FitFault>
        requires { HasResolvedKinds self.old }
        ensures { FitsItemAt (script_of_parts script.now) (item_of item) self.old self.new result }
    {
        match self.solve_item(alloc, script, item) {
            Ok(()) => Ok(()),
            Err(Misfit::NoKinds) => Err(FitFault::WrongKind {
                place: item.place(),
            }),
            Err(Misfit::Memory) => Err(FitFault::Memory),
        }
    }

    /// Solves the equations for an item.
    fn solve_item(&mut self, alloc: A, script: &ScriptParts<A>, item: Item) -> Result<(), Misfit>
        requires { HasResolvedKinds self.old }
        ensures { SolvedForItem (script_of_parts script.now) (item_of item) self.old self.new
            result }
    {
        self.equations.forget();
        ask_item(&mut self.equations, alloc, script, &self.numbering, item)?;
        self.equations.solve(alloc)
    }
}

/// Adds the equations for an item. `NoKinds` where it is not there, and so no kinds fit it.
fn ask_item<A: Allocator + Copy>(
    equations: &mut Equations<A>,
    alloc: A,
    script: &ScriptParts<A>,
    numbering: &Numbering<A>,
    item: Item,
) -> Result<(), Misfit>
    ensures { AsksForItem (script_of_parts script.now) (numbering_of numbering.now) (item_of item)
        equations.old equations.new result }
{
    match item {
        Item::Equation { number, .. } => {
            let Some(equation) = script.equations.get(number) else {
                return Err(Misfit::NoKinds);
            };
            let Some(numbers) = numbering.parameters.get(number) else {
                return Err(Misfit::NoKinds);
            };
            equations.ask_equation(alloc, script, numbering, equation, numbers)?;
            Ok(())
        }
        Item::Assertion { number, .. } => {
            let Some(assertion) = script.assertions.get(number) else {
                return Err(Misfit::NoKinds);
            };
            equations.ask_assertion(alloc, script, numbering, assertion)?;
            Ok(())
        }
    }
}
