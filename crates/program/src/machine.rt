//! The files of the machine, and its standard input.

ghost use Rattle.std.specs.Prelude.{◌≡◌, ◌≤◌, ◌↔◌, IfOk, IsTrue, codes, length};

use crate::beginning::read_beginning;
use crate::files::{Files, Unread};
use std::fs::File;
use std::rt;

/// The files of the machine. A file that never ends, as a device, is read as far as any other. The name `-` is that of
/// standard input, and of no file.
#[derive(Clone, Copy, Drop)]
pub struct MachineFiles<'r, R> {
    machine: &'r R,
}

impl<'r, R> MachineFiles<'r, R> {
    /// The files of this machine.
    pub fn new(machine: &'r R) -> MachineFiles<'r, R>
        ensures { result.machine ≡ machine.entry }
    {
        MachineFiles { machine }
    }
}

/// Whether the name is that of standard input.
pub fn is_standard_input(name: &str) -> bool
    ensures { IsTrue result ↔ (name.now ≡ codes "-") }
{
    name == "-"
}

// What the name gives.
fn read_named<R: rt::Files + Input + Alloc>(
    machine: &R,
    name: &str,
) -> Result<Vec<u8, R::A>, Unread>
    ensures { IfOk result (λ bytes. length bytes.items ≤ 65537) }
{
    if is_standard_input(name) {
        read_input(machine)
    } else {
        read_file(machine, name)
    }
}

// What standard input gives.
fn read_input<R: Input + Alloc>(machine: &R) -> Result<Vec<u8, R::A>, Unread>
    ensures { IfOk result (λ bytes. length bytes.items ≤ 65537) }
{
    read_beginning(machine.alloc(), &mut machine.reader())
}

// What the file gives.
fn read_file<R: rt::Files + Alloc>(machine: &R, name: &str) -> Result<Vec<u8, R::A>, Unread>
    ensures { IfOk result (λ bytes. length bytes.items ≤ 65537) }
{
    let mut file = File::open(machine, name)?;
    read_beginning(machine.alloc(), &mut file)
}

impl<R: rt::Files + Input + Alloc> Files<R::A> for MachineFiles<'_, R> {
    ghost use Rattle.std.specs.Prelude.{⊤};

    ghost may_hold = { λ _ _ _. ⊤ };

    ghost may_lack = { λ _ _ _. ⊤ };

    fn read(&mut self, name: &str) -> Result<Vec<u8, R::A>, Unread> {
        read_named(self.machine, name)
    }
}
