//! The rows of a level.

ghost use Rattle.std.specs.Prelude.{◌≡◌, IfOk};
ghost use Rattle.theory_search.specs.Terms.{AreTermsOf};
ghost use Rattle.csp_term.specs.Script.{script_of};
ghost use Rattle.numbered_rows.specs.Levels.{level_of};

use csp_term::{AllocHandle, Memory, Script};
use numbered_rows::Level;
use pair_store::Store;
use std::alloc::{AllocError, Global};

/// Copies of the rows of the level that are not finished. Their terms are terms of the script.
pub(crate) fn unfinished<A: AllocHandle>(
    alloc: A,
    script: &Script<A>,
    store: &Store<'_, A>,
) -> Result<Level<A>, Memory>
    requires { store.now.script ≡ script_of script.now }
    ensures { IfOk result (λ level. AreTermsOf (script_of script.now) (level_of level)) }
{
    let level = store.level(alloc)?;
    Ok(level)
}

/// The places of the level's rows, in its order.
pub(crate) fn places_of<A: AllocHandle>(
    alloc: Global,
    level: &Level<A>,
) -> Result<Vec<usize>, AllocError> {
    let mut places = Vec::new(alloc);
    for row in &level.rows {
        places.push(row.place)?;
    }
    Ok(places)
}
