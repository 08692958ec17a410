//! The declared names of a script.

ghost use Rattle.std.specs.Prelude.{◌≡◌, length, option_map, slice_get, take};
ghost use Rattle.std.specs.Str.{chars};
ghost use Rattle.csp_names.specs.Meanings.{declared_of};
ghost use Rattle.csp_names.specs.Rows.{AreTexts, row_at, spelled};

use crate::meanings::Declared;
use csp_parse::Name as RawName;
use csp_term::EquationId;
use csp_value::{ChannelId, ConId};
use indexmap::IndexMap;
use std::alloc::Allocator;
use std::hash::{BuildHasherDefault, FoldHasher};

/// Every declared name in the order of the text, with what it is declared as, and how many parameters each equation and
/// how many fields each constructor and channel has.
#[derive(Drop)]
pub struct Names<'t, A: Allocator> {
    /// Each name by the bytes of its spelling, in the order of the text.
    pub table: IndexMap<&'t [u8], Declared, BuildHasherDefault<FoldHasher>, A>,
    /// How many parameters each equation has.
    pub parameters: Vec<usize, A>,
    /// How many fields each constructor has.
    pub constructors: Vec<usize, A>,
    /// How many fields each channel has.
    pub fields: Vec<usize, A>,
}

impl<'t, A: Allocator> Names<'t, A> {
    /// How many names are declared.
    pub fn len(&self) -> usize
        ensures { result ≡ length self.now.table.entries }
    {
        self.table.len()
    }

    /// What the name is declared as, if it is among so many first names.
    pub(crate) fn find(&self, name: RawName<'t>, visible: usize) -> Option<Declared>
        ensures { AreTexts self.now.table.entries → option_map declared_of result
            ≡ option_map declared_of
            (row_at (take visible (spelled self.now.table.entries)) (chars name.entry.text.now)) }
    {
        match self.table.get_full(name.text.as_bytes()) {
            Some((place, _, declared)) if place < visible => Some(*declared),
            _ => None,
        }
    }

    /// How many fields the constructor has.
    pub(crate) fn constructor_count(&self, constructor: ConId) -> Option<usize>
        ensures { result ≡ slice_get self.now.constructors.items constructor.0 }
    {
        self.constructors.get(constructor.0 as usize).copied()
    }

    /// How many fields the channel has.
    pub(crate) fn field_count(&self, channel: ChannelId) -> Option<usize>
        ensures { result ≡ slice_get self.now.fields.items channel.0 }
    {
        self.fields.get(channel.0 as usize).copied()
    }

    /// How many parameters the equation has.
    pub(crate) fn parameter_count(&self, equation: EquationId) -> Option<usize>
        ensures { result ≡ slice_get self.now.parameters.items equation.0 }
    {
        self.parameters.get(equation.0 as usize).copied()
    }
}
