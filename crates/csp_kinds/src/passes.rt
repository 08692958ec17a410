//! The three passes.

ghost use Rattle.std.specs.Prelude.{◌≡◌, IfErr, IfOk};
ghost use Rattle.theory_checking.specs.Checked.{IsCheckedTree};
ghost use Rattle.csp_parse.specs.Declarations as tree;
ghost use Rattle.csp_term.specs.Script.{script_of};
ghost use Rattle.csp_kinds.specs.Refusals.{IsRefusalOf, item_refusal_of};

use crate::items::resolve_items;
use crate::parts::make_parts;
use crate::sets::{Sets, sets_of};
use csp_inference::FitFault;
use csp_names::{KindFault, Refused, names_of};
use csp_parse::Raw;
use csp_term::Script;
use std::alloc::Allocator;

/// The script that a tree stands for, or why it is refused.
///
/// The first pass refuses a name that is declared again. The second goes over the sets and the names in use, and the
/// third over the equations and assertions, whose kinds have to fit. The first refusal of the first pass that has one
/// is answered. `Refused::Memory` comes where there was no room, and says nothing of the tree.
pub fn check<A: Allocator + Copy>(alloc: A, raw: &Raw<'_, A>) -> Result<Script<A>, Refused>
    ensures script { IfOk result (λ script. IsCheckedTree (tree.script_of raw.now)
        (script_of script)) }
    ensures refusal { IfErr result (IsRefusalOf (tree.script_of raw.now)) }
{
    let names = names_of(alloc, raw)?;
    let sets = sets_of(alloc, raw, &names)?;
    let items = resolve_items(alloc, raw, &names, &sets)?;
    let Sets {
        types,
        channels,
        mut known,
        refused: _,
    } = sets;
    let parts = make_parts(alloc, raw, types, channels, items)?;
    match known.fit_items(alloc, raw, &parts) {
        Ok(()) => Ok(Script::new(parts)),
        Err(fault) => Err(item_refusal(fault)),
    }
}

/// The refusal of an equation or assertion.
fn item_refusal(fault: FitFault) -> Refused
    ensures { result ≡ item_refusal_of fault }
{
    match fault {
        FitFault::WrongKind { place } => Refused::Fault {
            fault: KindFault::WrongKind,
            place,
        },
        FitFault::Memory => Refused::Memory,
    }
}
