//! Files by their names.

use std::alloc::{AllocError, Allocator};
use std::io::{Error as IoError, ErrorKind};
use thiserror::Error;

/// Why a file cannot be read.
#[derive(Clone, Copy, Debug, PartialEq, Eq)]
pub enum Lack {
    /// There is no file of that name.
    Missing,
    /// It is a folder.
    Folder,
    /// It may not be read.
    Forbidden,
    /// Another reason, as a device that fails.
    Broken,
}

/// Why a file's bytes are not answered.
#[derive(Clone, Copy, Debug, PartialEq, Eq, Error)]
pub enum Unread {
    /// The file cannot be read, for this reason.
    #[error("the file cannot be read")]
    File(Lack),
    /// Memory was refused.
    #[error("out of memory")]
    Memory,
}

impl From<AllocError> for Unread {
    fn from(_refused: AllocError) -> Unread {
        Unread::Memory
    }
}

impl From<IoError> for Unread {
    ghost use Rattle.std.specs.Prelude.{◌≡◌};
    ghost use Rattle.std.specs.IoError.{error_kind};
    ghost use Rattle.program.specs.Unread.{of_kind};

    ghost from_gives = { λ error fault. fault ≡ of_kind (error_kind error) };

    fn from(error: IoError) -> Unread {
        match error.kind() {
            ErrorKind::OutOfMemory => Unread::Memory,
            ErrorKind::NotFound | ErrorKind::NotADirectory => Unread::File(Lack::Missing),
            ErrorKind::IsADirectory => Unread::File(Lack::Folder),
            ErrorKind::PermissionDenied => Unread::File(Lack::Forbidden),
            _ => Unread::File(Lack::Broken),
        }
    }
}

/// Files by their names.
pub trait Files<A: Allocator> {
    ghost use Rattle.std.specs.Prelude.{List, ℕ, IfErr, IfOk};
    ghost use Rattle.program.specs.Beginning.{IsBeginning};
    ghost use Rattle.program.specs.Unread.{IfLacks};
    ghost use Rattle.program.specs.declared.files.Lack.{Lack};

    /// The bytes that the file of a name may hold.
    ghost may_hold: { Self → List ℕ → List ℕ → Type 0 };

    /// The file of a name may be none that can be read, for this reason.
    ghost may_lack: { Self → List ℕ → Lack → Type 0 };

    /// The bytes of the file of that name, or the first `MOST_BYTES` of them where it has more.
    fn read(&mut self, name: &str) -> Result<Vec<u8, A>, Unread>
        ensures holds { IfOk result (λ bytes. IsBeginning (may_hold self.old name.now)
            bytes.items) }
        ensures lacks { IfErr result (IfLacks (may_lack self.old name.now)) };
}
