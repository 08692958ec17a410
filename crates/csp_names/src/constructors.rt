//! Constructors by their names, and how many fields they have.

ghost use Rattle.std.specs.Prelude.{◌≡◌};
ghost use Rattle.csp_parse.specs.Names.{name_of};
ghost use Rattle.csp_names.specs.Walks.{LacksFields, ResolvesConstructor};

use crate::bound_names::BoundNames;
use crate::channels::counts_agree;
use crate::meanings::Meaning;
use crate::refusals::{KindFault, Refused};
use crate::scope::Scope;
use csp_parse::Name as RawName;
use csp_value::ConId;
use std::alloc::Allocator;

impl<'n, 't, A: Allocator + Copy> Scope<'n, 't, A> {
    /// The constructor that is written with so many fields.
    pub(crate) fn resolve_constructor(
        &self,
        bound: &BoundNames<'t, A>,
        name: RawName<'t>,
        fields: usize,
    ) -> Result<ConId, Refused>
        ensures { ResolvesConstructor self.now bound.now fields (name_of name.entry) result }
    {
        let Some(meaning) = self.meaning(bound, name) else {
            return Err(Refused::at(KindFault::UnknownName, name.place));
        };
        let Some(constructor) = meaning.constructor() else {
            return Err(Refused::at(KindFault::WrongKind, name.place));
        };
        if counts_agree(self.names.constructor_count(constructor), fields) {
            Ok(constructor)
        } else {
            Err(Refused::at(KindFault::WrongCount, name.place))
        }
    }

    /// Whether a name with this meaning is a constructor with fields, which cannot stand alone.
    pub(crate) fn lacks_fields(&self, meaning: Meaning) -> bool
        ensures { LacksFields self.now meaning result }
    {
        match meaning.constructor() {
            Some(constructor) => !counts_agree(self.names.constructor_count(constructor), 0),
            None => false,
        }
    }
}
