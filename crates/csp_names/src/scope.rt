//! The names that can be used where the text is looked at.

ghost use Rattle.std.specs.Prelude.{◌≡◌, option_map};
ghost use Rattle.theory_checking.specs.Names.{meaning, Environment};
ghost use Rattle.csp_parse.specs.Names.{name_of};
ghost use Rattle.csp_names.specs.Meanings.{meaning_of};
ghost use Rattle.csp_names.specs.Rows.{AreTexts};
ghost use Rattle.csp_names.specs.Scopes.{declared_at, StandsFor};
ghost use Rattle.std.specs.Str.{chars};

use crate::bound_names::BoundNames;
use crate::meanings::Meaning;
use crate::names::Names;
use csp_parse::Name as RawName;
use csp_value::FieldSet;
use std::alloc::Allocator;

/// The declared names of a script of which so many first ones can be used, and the field sets of each channel, if no
/// rule refuses one of them.
#[derive(Drop)]
pub struct Scope<'n, 't, A: Allocator> {
    /// All declared names of the script.
    pub names: &'n Names<'t, A>,
    /// How many of them, the first ones, can be used.
    pub visible: usize,
    /// The field sets of each channel, `None` where a rule refuses one of them.
    pub field_sets: &'n [Option<Vec<FieldSet<A>, A>>],
}

impl<'n, 't, A: Allocator + Copy> Scope<'n, 't, A> {
    /// A scope of so many first names.
    pub fn new(
        names: &'n Names<'t, A>,
        visible: usize,
        field_sets: &'n [Option<Vec<FieldSet<A>, A>>],
    ) -> Scope<'n, 't, A>
        ensures names { result.names.now ≡ names.now }
        ensures visible { result.visible ≡ visible }
        ensures field_sets { result.field_sets.now ≡ field_sets.now }
    {
        Scope {
            names,
            visible,
            field_sets,
        }
    }

    /// What the name means here, if anything. A bound name hides a declared one.
    pub(crate) fn meaning(&self, bound: &BoundNames<'t, A>, name: RawName<'t>) -> Option<Meaning>
        ensures { (env : Environment) → StandsFor self.now bound.now env
            → meaning env (name_of name.entry) ≡ option_map meaning_of result }
    {
        match bound.find(name) {
            Some(bound) => Some(Meaning::Bound(bound)),
            None => self.declared(name),
        }
    }

    /// What the name means as a declared one, if anything.
    fn declared(&self, name: RawName<'t>) -> Option<Meaning>
        ensures { AreTexts self.now.names.now.table.entries
            → option_map meaning_of result ≡ declared_at self.now.names.now self.now.visible
            (chars name.entry.text.now) }
    {
        match self.names.find(name, self.visible) {
            Some(declared) => Some(Meaning::Declared(declared)),
            None => None,
        }
    }
}
