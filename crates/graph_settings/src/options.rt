//! What a command line asks of the program.

ghost use Rattle.std.specs.Prelude.{◌≡◌, ◌≤◌, ◌↔◌, Some, [], IfOk, IfErr, IsTrue, codes};
ghost use Rattle.clap.specs.Walk.{texts};
ghost use Rattle.settings.specs.CommandLine.{HasNumber};
ghost use Rattle.graph_settings.specs.CommandLine.{IsUsed, format_word, value};
ghost use Rattle.graph_settings.specs.Faults.{IsFaultOf, Refuses, faults_of};

use crate::command::command_line;
use crate::format::{Format, format_of};
use settings::{CommandLineFault, is_used, number};
use std::alloc::Global;

/// What a command line asks of the program.
#[derive(Clone, Copy, Debug, PartialEq, Eq)]
pub struct Settings<'a> {
    /// How the graph is printed.
    pub format: Format,
    /// The most states that it may have, 1 to 1,000,000.
    pub max_states: usize,
    /// Whether names are unfolded at once.
    pub at_once: bool,
    /// Whether the graph is that of the specification, and not that of the implementation.
    pub specification: bool,
    /// Whether it is told how many states are found, also where that is no terminal.
    pub progress: bool,
    /// The name of the script's file.
    pub file: &'a str,
    /// The number of the assertion.
    pub assertion: usize,
    pub ghost states_in_range: { (1 ≤ max_states) × (max_states ≤ 1000000) },
    pub ghost assertion_in_range: { (1 ≤ assertion) × (assertion ≤ 1000000) },
}

/// The settings of the words after the program's name.
///
/// The words may ask for the help (`Help`) or the version (`Version`), or be none of the command line's (`Refused`): a
/// word that is no option, an option that is used twice, a format that there is not, a value that is no number or lies
/// out of its range, no file, no number of an assertion, or too many words.
pub fn read<'a>(alloc: Global, words: &'a [&'a str]) -> Result<Settings<'a>, CommandLineFault>
    ensures taken { IfOk result (λ _. faults_of (texts words.entry.now) ≡ []) }
    ensures format { IfOk result (λ s. value (codes "format") (texts words.entry.now)
        ≡ Some (format_word s.format)) }
    ensures states { IfOk result (λ s. HasNumber (value (codes "max-states") (texts words.entry.now))
        s.max_states) }
    ensures at_once { IfOk result (λ s. IsTrue s.at_once
        ↔ IsUsed (codes "unfold") (texts words.entry.now)) }
    ensures specification { IfOk result (λ s. IsTrue s.specification
        ↔ IsUsed (codes "specification") (texts words.entry.now)) }
    ensures progress { IfOk result (λ s. IsTrue s.progress
        ↔ IsUsed (codes "progress") (texts words.entry.now)) }
    ensures file { IfOk result (λ s. value (codes "file") (texts words.entry.now)
        ≡ Some s.file.now) }
    ensures assertion { IfOk result (λ s. HasNumber
        (value (codes "assertion") (texts words.entry.now)) s.assertion) }
    ensures fault { IfErr result (IsFaultOf (texts words.entry.now)) }
{
    let matches = match command_line(alloc)?.try_get_matches_from(words) {
        Ok(matches) => matches,
        Err(error) => return Err(CommandLineFault::of(alloc, &error)),
    };
    let word = matches.get_str("format").unwrap();
    let Some(format) = format_of(word) else {
        return Err(no_format(alloc, word));
    };
    Ok(Settings {
        format,
        max_states: number(&matches, "max-states"),
        at_once: is_used(&matches, "unfold"),
        specification: is_used(&matches, "specification"),
        progress: is_used(&matches, "progress"),
        file: matches.get_str("file").unwrap(),
        assertion: number(&matches, "assertion"),
    })
}

// What is said of a word that names no format, as `clap` says it.
fn no_format(alloc: Global, word: &str) -> CommandLineFault
    ensures { Refuses result }
{
    let text = format!(in alloc;
        "error: invalid value '{word}' for '--format <FORMAT>'\n  [possible values: aut, dot]\n\nFor more information, try '--help'.\n"
    );
    match text {
        Ok(text) => CommandLineFault::Refused(text),
        Err(_) => CommandLineFault::Memory,
    }
}
