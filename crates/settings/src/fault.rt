//! Why a command line gives no settings.

ghost use Rattle.clap.specs.Words.{kind_of};
ghost use Rattle.settings.specs.Faults.{IsAnswerOf};

use clap::error::ErrorKind;
use std::alloc::{AllocError, Global};
use thiserror::Error;

/// Why a command line gives no settings.
#[derive(Debug, Drop, Error)]
pub enum CommandLineFault {
    /// The words ask for the help, which is this text for the standard output.
    #[error("{0}")]
    Help(String),
    /// The words ask for the version, which is this text for the standard output.
    #[error("{0}")]
    Version(String),
    /// The words are refused, for what this text for the standard error says.
    #[error("{0}")]
    Refused(String),
    /// Memory was refused.
    #[error("out of memory")]
    Memory,
}

impl From<AllocError> for CommandLineFault {
    ghost use Rattle.std.specs.Prelude.{◌≡◌};
    ghost use Rattle.settings.specs.declared.fault.CommandLineFault.TheVariants.{Memory};

    ghost from_gives = { λ _ fault. fault ≡ Memory };

    fn from(_error: AllocError) -> CommandLineFault {
        CommandLineFault::Memory
    }
}

impl CommandLineFault {
    /// What `clap` answers in place of matches, with its text.
    pub fn of(alloc: Global, error: &clap::Error) -> CommandLineFault
        ensures { IsAnswerOf (kind_of error.now) result }
    {
        let Ok(text) = format!(in alloc; "{error}") else {
            return CommandLineFault::Memory;
        };
        match error.kind() {
            ErrorKind::OutOfMemory => CommandLineFault::Memory,
            ErrorKind::DisplayHelp => CommandLineFault::Help(text),
            ErrorKind::DisplayVersion => CommandLineFault::Version(text),
            _ => CommandLineFault::Refused(text),
        }
    }
}
