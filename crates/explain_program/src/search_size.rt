//! How large a search is, and what it took.

ghost use Rattle.explain_program.specs.Sizes.{HasSize};

use csp_term::AllocHandle;
use pair_store::Store;
use watch::Cost;

/// How large a search is, and what it took.
#[derive(Clone, Copy, Debug, PartialEq, Eq)]
pub struct SearchSize {
    /// The pairs that it keeps.
    pub pairs: usize,
    /// The nodes of the specification's normal form, where there is a specification.
    pub nodes: usize,
    /// What it took.
    pub cost: Cost,
}

/// How large the search is that the store keeps, and took so much.
pub(crate) fn size_in<A: AllocHandle>(store: &Store<'_, A>, cost: Cost) -> SearchSize
    ensures { HasSize store.now.search result }
{
    SearchSize {
        pairs: store.pairs(),
        nodes: store.nodes(),
        cost,
    }
}
