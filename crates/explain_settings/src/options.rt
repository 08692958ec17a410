//! What a command line asks of the program.

ghost use Rattle.std.specs.Prelude.{◌≡◌, ◌≤◌, ◌↔◌, Some, [], IfOk, IfErr, IsTrue, codes};
ghost use Rattle.clap.specs.Walk.{texts};
ghost use Rattle.clap.specs.Words.{kind_of};
ghost use Rattle.settings.specs.CommandLine.{HasNumber};
ghost use Rattle.settings.specs.Faults.{IsAnswerOf};
ghost use Rattle.explain_settings.specs.CommandLine.{IsUsed, format_word, value};
ghost use Rattle.explain_settings.specs.Faults.{IsFaultOf, Refuses, faults_of};

use crate::command::command_line;
use crate::format::{Format, format_of};
use crate::help::with_refusals;
use settings::{CommandLineFault, is_used, number};
use std::alloc::Global;

/// What a command line asks of the program.
#[derive(Clone, Copy, Debug, PartialEq, Eq)]
pub struct Settings<'a> {
    /// How many workers search, 1 to 64.
    pub workers: usize,
    /// The most pairs that a search keeps, 1 to 1,000,000.
    pub max_pairs: usize,
    /// The most nodes of a normal form, and the most states of each, 1 to 100,000.
    pub max_nodes: usize,
    /// Whether names are unfolded at once.
    pub at_once: bool,
    /// The most characters of a state that are told, or 0 for all.
    pub width: usize,
    /// Whether it is told how large the search of an assertion was.
    pub count: bool,
    /// Whether of a path only the events are told, seen and hidden, and the last state.
    pub events: bool,
    /// Whether steps that unfold a name are told one by one, where each step is told.
    pub steps: bool,
    /// Whether it is told how far a search is, also where that is no terminal.
    pub progress: bool,
    /// How it is told.
    pub format: Format,
    /// The name of the script's file.
    pub file: &'a str,
    /// The number of the assertion to tell of, or 0 for each.
    pub assertion: usize,
    pub ghost workers_in_range: { (1 ≤ workers) × (workers ≤ 64) },
    pub ghost pairs_in_range: { (1 ≤ max_pairs) × (max_pairs ≤ 1000000) },
    pub ghost nodes_in_range: { (1 ≤ max_nodes) × (max_nodes ≤ 100000) },
}

/// The settings of the words after the program's name.
///
/// The words may ask for the help (`Help`) or the version (`Version`), or be none of the command line's (`Refused`): a
/// word that is no option, an option that is used twice, a value that is no number or lies out of its range, a format that
/// there is not, no file, or too many words.
pub fn read<'a>(alloc: Global, words: &'a [&'a str]) -> Result<Settings<'a>, CommandLineFault>
    ensures taken { IfOk result (λ _. faults_of (texts words.entry.now) ≡ []) }
    ensures workers { IfOk result (λ s. HasNumber (value (codes "workers") (texts words.entry.now))
        s.workers) }
    ensures pairs { IfOk result (λ s. HasNumber (value (codes "max-pairs") (texts words.entry.now))
        s.max_pairs) }
    ensures nodes { IfOk result (λ s. HasNumber (value (codes "max-nodes") (texts words.entry.now))
        s.max_nodes) }
    ensures at_once { IfOk result (λ s. IsTrue s.at_once
        ↔ IsUsed (codes "unfold") (texts words.entry.now)) }
    ensures width { IfOk result (λ s. HasNumber (value (codes "width") (texts words.entry.now))
        s.width) }
    ensures count { IfOk result (λ s. IsTrue s.count
        ↔ IsUsed (codes "count") (texts words.entry.now)) }
    ensures events { IfOk result (λ s. IsTrue s.events
        ↔ IsUsed (codes "events") (texts words.entry.now)) }
    ensures steps { IfOk result (λ s. IsTrue s.steps
        ↔ IsUsed (codes "steps") (texts words.entry.now)) }
    ensures progress { IfOk result (λ s. IsTrue s.progress
        ↔ IsUsed (codes "progress") (texts words.entry.now)) }
    ensures format { IfOk result (λ s. value (codes "format") (texts words.entry.now)
        ≡ Some (format_word s.format)) }
    ensures file { IfOk result (λ s. value (codes "file") (texts words.entry.now)
        ≡ Some s.file.now) }
    ensures assertion { IfOk result (λ s. HasNumber
        (value (codes "assertion") (texts words.entry.now)) s.assertion) }
    ensures fault { IfErr result (IsFaultOf (texts words.entry.now)) }
{
    let matches = match command_line(alloc)?.try_get_matches_from(words) {
        Ok(matches) => matches,
        Err(error) => return Err(fault(alloc, &error)),
    };
    let word = matches.get_str("format").unwrap();
    let Some(format) = format_of(word) else {
        return Err(no_format(alloc, word));
    };
    Ok(Settings {
        workers: number(&matches, "workers"),
        max_pairs: number(&matches, "max-pairs"),
        max_nodes: number(&matches, "max-nodes"),
        at_once: is_used(&matches, "unfold"),
        width: number(&matches, "width"),
        count: is_used(&matches, "count"),
        events: is_used(&matches, "events"),
        steps: is_used(&matches, "steps"),
        progress: is_used(&matches, "progress"),
        format,
        file: matches.get_str("file").unwrap(),
        assertion: number(&matches, "assertion"),
    })
}

// What the command line answers in place of matches. The help has the refusals of a script behind it.
fn fault(alloc: Global, error: &clap::Error) -> CommandLineFault
    ensures { IsAnswerOf (kind_of error.now) result }
{
    match CommandLineFault::of(alloc, error) {
        CommandLineFault::Help(text) => match with_refusals(alloc, &text) {
            Ok(text) => CommandLineFault::Help(text),
            Err(_) => CommandLineFault::Memory,
        },
        other => other,
    }
}

// What is said of a word that names no format, as `clap` says it.
fn no_format(alloc: Global, word: &str) -> CommandLineFault
    ensures { Refuses result }
{
    let text = format!(in alloc;
        "error: invalid value '{word}' for '--format <FORMAT>'\n  [possible values: text, json]\n\nFor more information, try '--help'.\n"
    );
    match text {
        Ok(text) => CommandLineFault::Refused(text),
        Err(_) => CommandLineFault::Memory,
    }
}
