//! What a command line asks of the program.

ghost use Rattle.std.specs.Prelude.{◌≡◌, ◌≤◌, ◌↔◌, Some, [], IfOk, IfErr, IsTrue, codes};
ghost use Rattle.clap.specs.Walk.{texts};
ghost use Rattle.settings.specs.CommandLine.{HasNumber};
ghost use Rattle.walk_settings.specs.CommandLine.{IsUsed, value};
ghost use Rattle.walk_settings.specs.Faults.{IsFaultOf, faults_of};

use crate::command::command_line;
use settings::{CommandLineFault, is_used, number};
use std::alloc::Global;

/// What a command line asks of the program.
#[derive(Clone, Copy, Debug, PartialEq, Eq)]
pub struct Settings<'a> {
    /// The most characters of a state that are shown, or 0 for all.
    pub width: usize,
    /// Whether names are unfolded at once.
    pub at_once: bool,
    /// Whether the walk is through the specification, and not through the implementation.
    pub specification: bool,
    /// The name of the script's file.
    pub file: &'a str,
    /// The number of the assertion.
    pub assertion: usize,
    pub ghost assertion_in_range: { (1 ≤ assertion) × (assertion ≤ 1000000) },
}

/// The settings of the words after the program's name.
///
/// The words may ask for the help (`Help`) or the version (`Version`), or be none of the command line's (`Refused`): a
/// word that is no option, an option that is used twice, a value that is no number or lies out of its range, no file, no
/// number of an assertion, or too many words.
pub fn read<'a>(alloc: Global, words: &'a [&'a str]) -> Result<Settings<'a>, CommandLineFault>
    ensures taken { IfOk result (λ _. faults_of (texts words.entry.now) ≡ []) }
    ensures width { IfOk result (λ s. HasNumber (value (codes "width") (texts words.entry.now))
        s.width) }
    ensures at_once { IfOk result (λ s. IsTrue s.at_once
        ↔ IsUsed (codes "unfold") (texts words.entry.now)) }
    ensures specification { IfOk result (λ s. IsTrue s.specification
        ↔ IsUsed (codes "specification") (texts words.entry.now)) }
    ensures file { IfOk result (λ s. value (codes "file") (texts words.entry.now)
        ≡ Some s.file.now) }
    ensures assertion { IfOk result (λ s. HasNumber
        (value (codes "assertion") (texts words.entry.now)) s.assertion) }
    ensures fault { IfErr result (IsFaultOf (texts words.entry.now)) }
{
    let matches = match command_line(alloc)?.try_get_matches_from(words) {
        Ok(matches) => matches,
        Err(error) => return Err(CommandLineFault::of(alloc, &error)),
    };
    Ok(Settings {
        width: number(&matches, "width"),
        at_once: is_used(&matches, "unfold"),
        specification: is_used(&matches, "specification"),
        file: matches.get_str("file").unwrap(),
        assertion: number(&matches, "assertion"),
    })
}
