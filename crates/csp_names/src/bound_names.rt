//! The bound names of a script.

ghost use Rattle.std.specs.Prelude.{◌≡◌, ◌∷◌, [], cond, length, nat_lt, None, Some, option_map, IfErr, IfOk, OnOk};
ghost use Rattle.std.specs.Str.{chars, IsUtf8};
ghost use Rattle.theory_checking.specs.Names.{number_in};
ghost use Rattle.csp_names.specs.declared.refusals.Refused.TheVariants.{Memory as no_room};
ghost use Rattle.csp_names.specs.Rows.{AreTexts, row_at};
ghost use Rattle.csp_names.specs.Scopes.{Binds, bound_rows, bound_spellings, IsInOrder, IsPut, number_at, Releases, times_at};

use crate::refusals::Refused;
use csp_expression::Name;
use csp_parse::Name as RawName;
use indexmap::IndexMap;
use std::alloc::Allocator;
use std::hash::{BuildHasherDefault, FoldHasher};

/// A bound name's number, and how often the name is bound where the text is looked at.
#[derive(Clone, Copy)]
pub struct BoundName {
    /// Its number.
    pub name: Name,
    /// How many bindings of it are open, 0 where the name is not bound here.
    pub times: u32,
}

/// The names that the text binds so far, each once, in the order in which they first are.
#[derive(Drop)]
pub struct BoundNames<'t, A: Allocator> {
    /// A row for each spelling, by its bytes.
    pub table: IndexMap<&'t [u8], BoundName, BuildHasherDefault<FoldHasher>, A>,
}

impl<'t, A: Allocator + Copy> BoundNames<'t, A> {
    /// No names.
    pub fn new(alloc: A) -> BoundNames<'t, A>
        ensures { result.table.entries ≡ [] }
    {
        BoundNames {
            table: IndexMap::new(alloc),
        }
    }

    /// The name that is bound here, if it is.
    pub(crate) fn find(&self, name: RawName<'t>) -> Option<Name>
        ensures { IsInOrder self.now → option_map (λ n. n.0) result
            ≡ cond (nat_lt 0 (times_at self.now (chars name.entry.text.now)))
            (number_at self.now (chars name.entry.text.now)) None }
    {
        match self.row(name.text.as_bytes()) {
            Some(row) if row.times > 0 => Some(row.name),
            _ => None,
        }
    }

    /// Whether the name is bound here.
    pub(crate) fn is_bound(&self, name: RawName<'t>) -> bool
        ensures { IsInOrder self.now → result ≡ nat_lt 0
            (times_at self.now (chars name.entry.text.now)) }
    {
        match self.row(name.text.as_bytes()) {
            Some(row) => row.times > 0,
            None => false,
        }
    }

    /// Binds the name, once more where it is bound here. It is `Memory` where there is no room for it.
    pub(crate) fn bind(&mut self, name: RawName<'t>) -> Result<Name, Refused>
        ensures number { IfOk result (λ n. IsInOrder self.old
            → number_in (bound_spellings self.new) (chars name.entry.text.now) ≡ Some n.0) }
        ensures binds { OnOk result (IsInOrder self.old
            → Binds self.old self.new (chars name.entry.text.now ∷ [])
            (chars name.entry.text.now ∷ [])) }
        ensures stops { IfErr result (λ refused. refused ≡ no_room) }
    {
        let text = name.text.as_bytes();
        let known = match self.row(text) {
            Some(row) => row,
            None => self.next()?,
        };
        let name = known.name;
        let times = known.times.checked_add(1).ok_or(Refused::Memory)?;
        self.put(text, BoundName { name, times })?;
        Ok(name)
    }

    /// Ends one binding of the name. It is `Memory` where there is no room for the table.
    pub(crate) fn release(&mut self, name: RawName<'t>) -> Result<(), Refused>
        ensures releases { OnOk result (IsInOrder self.old
            → Releases self.old self.new (chars name.entry.text.now ∷ [])) }
        ensures stops { IfErr result (λ refused. refused ≡ no_room) }
    {
        let text = name.text.as_bytes();
        match self.row(text) {
            Some(row) => {
                let name = row.name;
                let times = row.times.saturating_sub(1);
                self.put(text, BoundName { name, times })
            }
            None => Ok(()),
        }
    }

    /// The row of the bytes.
    fn row(&self, text: &'t [u8]) -> Option<BoundName>
        ensures { IsUtf8 text.entry.now → AreTexts self.now.table.entries
            → result ≡ row_at (bound_rows self.now) (chars text.entry.now) }
    {
        self.table.get(text).copied()
    }

    /// A row for a name that is new.
    fn next(&self) -> Result<BoundName, Refused>
        ensures number { IfOk result (λ row. row.name.0 ≡ length self.now.table.entries) }
        ensures times { IfOk result (λ row. row.times ≡ 0) }
        ensures stops { IfErr result (λ refused. refused ≡ no_room) }
    {
        match u32::try_from(self.table.len()) {
            Ok(number) => Ok(BoundName {
                name: Name(number),
                times: 0,
            }),
            Err(_) => Err(Refused::Memory),
        }
    }

    /// Puts a row in the place of that of the bytes, or behind the others.
    fn put(&mut self, text: &'t [u8], row: BoundName) -> Result<(), Refused>
        ensures puts { OnOk result (IsUtf8 text.entry.now → AreTexts self.old.table.entries
            → IsPut self.old self.new (chars text.entry.now) row) }
        ensures stops { IfErr result (λ refused. refused ≡ no_room) }
    {
        self.table.insert(text, row)?;
        Ok(())
    }
}
