//! The bound names of a tree, each once.

ghost use Rattle.std.proofs.Props.{props};
ghost use Rattle.printed_names.specs.Texts.{AreTexts};

use csp_parse::Name;
use csp_value::Memory;
use indexmap::IndexSet;
use std::alloc::Allocator;
use std::hash::{BuildHasherDefault, FoldHasher};

/// The spellings of bound names so far, each once, in the order in which they were met.
#[derive(Drop)]
pub(crate) struct BoundNames<'t, A: Allocator> {
    spellings: IndexSet<&'t str, BuildHasherDefault<FoldHasher>, A>,
    ghost texts: { AreTexts spellings.keys } by { Prim.hlevel props },
}

impl<'t, A: Allocator + Copy> BoundNames<'t, A> {
    ghost use Rattle.std.specs.Prelude.{◌≡◌, ◌∷◌, [], map, IfOk};
    ghost use Rattle.std.specs.Str.{chars};
    ghost use Rattle.theory_checking.specs.Names.{spellings};
    ghost use Rattle.theory_notation.specs.Names.{in_bytes};
    ghost use Rattle.csp_parse.specs.Names.{name_of};
    ghost use Rattle.csp_print.specs.Names.{spellings_of};
    ghost use Rattle.printed_names.specs.Binding.{Meets, met};

    /// No names.
    pub(crate) fn new(alloc: A) -> BoundNames<'t, A>
        ensures { met result ≡ [] }
    {
        BoundNames {
            spellings: IndexSet::new(alloc),
        }
    }

    /// Adds the spelling, unless it was met.
    pub(crate) fn add(&mut self, spelling: &'t str) -> Result<(), Memory>
        ensures { Meets result self.old self.new (chars spelling.now ∷ []) }
    {
        self.spellings.insert(spelling)?;
        Ok(())
    }

    /// Adds the names in turn.
    pub(crate) fn add_all(&mut self, names: &[Name<'t>]) -> Result<(), Memory>
        ensures { Meets result self.old self.new (spellings (map name_of names.now)) }
    {
        for name in names {
            self.add(name.text)?;
        }
        Ok(())
    }

    /// The spellings as a list.
    pub(crate) fn listed(&self, alloc: A) -> Result<Vec<&'t str, A>, Memory>
        ensures { IfOk result (λ list. spellings_of list.items ≡ in_bytes (met self.now)) }
    {
        Ok(Vec::from_slice(alloc, self.spellings.as_slice())?)
    }
}
