//! One text in memory as a file.

ghost use Rattle.std.specs.Prelude.{◌≡◌, ◌↔◌, IfErr, IfOk};
ghost use Rattle.program.specs.declared.files.Lack.TheVariants as lack;
ghost use Rattle.program.specs.Beginning.{IsBeginning};
ghost use Rattle.program.specs.Unread.{IfLacks};

use crate::beginning::MOST_BYTES;
use crate::files::{Files, Lack, Unread};
use std::alloc::Allocator;

/// One text in memory, under a name. There is no other file.
#[derive(Drop)]
pub struct OneText<'t, A> {
    /// The name of the one file.
    pub name: &'t str,
    /// Its bytes.
    pub text: &'t [u8],
    /// Where copies of it are made.
    pub alloc: A,
}

impl<A: Allocator + Copy> Files<A> for OneText<'_, A> {
    ghost may_hold = { λ file name bytes. (name ≡ file.name.now) × (bytes ≡ file.text.now) };

    ghost may_lack = { λ file name why. (why ≡ lack.Missing) × (name ≡ file.name.now → ⊥) };

    fn read(&mut self, name: &str) -> Result<Vec<u8, A>, Unread>
        ensures holds { IfOk result (λ bytes. IsBeginning
            (λ text. (name.now ≡ self.old.name.now) × (text ≡ self.old.text.now)) bytes.items) }
        ensures lacks { IfErr result (IfLacks
            (λ why. (why ≡ lack.Missing) × (name.now ≡ self.old.name.now → ⊥))) }
        ensures name { result ≡ Err (Unread.File lack.Missing)
            ↔ (name.now ≡ self.old.name.now → ⊥) }
    {
        if name != self.name {
            return Err(Unread::File(Lack::Missing));
        }
        let most = self.text.len().min(MOST_BYTES);
        match self.text[..most].to_vec(self.alloc) {
            Ok(bytes) => Ok(bytes),
            Err(_) => Err(Unread::Memory),
        }
    }
}
