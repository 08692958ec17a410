//! The parts of the script.

ghost use Rattle.std.specs.Prelude.{IfOk};
ghost use Rattle.theory_checking.specs.Scripts.{IsScriptOf};
ghost use Rattle.csp_parse.specs.Declarations as tree;
ghost use Rattle.csp_term.specs.Script.{script_of_parts};
ghost use Rattle.csp_kinds.specs.Items.{AreItemsOf};
ghost use Rattle.csp_kinds.specs.Spellings.{AreFieldSetsOf, AreTypesOf};

use crate::items::Items;
use crate::names_in_order::{channel_names, constructor_names};
use crate::spellings::{channels, constructors};
use csp_expression::TypeTable;
use csp_parse::Raw;
use csp_term::{ScriptParts, Unfolding};
use csp_value::FieldSet;
use std::alloc::{AllocError, Allocator};

/// The parts of the tree's script: its types, the field sets of its channels, and its equations and assertions.
pub(crate) fn make_parts<A: Allocator + Copy>(
    alloc: A,
    raw: &Raw<'_, A>,
    types: TypeTable<A>,
    field_sets: Vec<Option<Vec<FieldSet<A>, A>>, A>,
    items: Items<A>,
) -> Result<ScriptParts<A>, AllocError>
    requires types { AreTypesOf (tree.script_of raw.now) types }
    requires sets { AreFieldSetsOf (tree.script_of raw.now) field_sets.items }
    requires items { AreItemsOf (tree.script_of raw.now) (tree.script_of raw.now) items }
    ensures { IfOk result (λ parts. IsScriptOf (tree.script_of raw.now) (script_of_parts parts)) }
{
    let constructors = constructors(alloc, &constructor_names(alloc, raw)?)?;
    let channels = channels(alloc, &channel_names(alloc, raw)?, field_sets)?;
    let Items {
        equations,
        assertions,
    } = items;
    Ok(ScriptParts {
        types,
        constructors,
        channels,
        equations,
        assertions,
        unfolds: Unfolding::ByTau,
    })
}
