//! The name that is spelled most like a word.

ghost use Rattle.std.specs.Prelude.{◌≡◌, IfOk, map};
ghost use Rattle.diagnostics.specs.Nearest.{IsNearest, most_edits};

use std::alloc::{AllocError, Allocator};
use strsim::levenshtein;

/// The most edits that lead from a word to a name that is spelled much like it.
const MOST_EDITS: usize = 2;

/// One of the names that are spelled most like the word, if any is spelled much like it.
pub fn nearest<'t, A: Allocator + Copy>(
    alloc: A,
    word: &str,
    names: &[&'t str],
) -> Result<Option<&'t str>, AllocError>
    ensures { IfOk result (IsNearest word.now (map (λ name. name.now) names.now)) }
{
    let mut nearest = None;
    let mut least = most_edits(word) + 1;
    for name in names {
        let edits = levenshtein(alloc, word, *name)?;
        if edits < least {
            least = edits;
            nearest = Some(*name);
        }
    }
    Ok(nearest)
}

/// How many edits may lead from the word to a name that is spelled much like it: at most two, and no more than half
/// its length.
fn most_edits(word: &str) -> usize
    ensures { result ≡ most_edits word.now }
{
    let length = word.chars().count();
    MOST_EDITS.min(length / 2)
}
