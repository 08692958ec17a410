//! What a command line asks of the program.

ghost use Rattle.std.specs.Prelude.{◌≡◌, ◌≤◌, ◌↔◌, Some, [], IfOk, IfErr, IsTrue, codes};
ghost use Rattle.clap.specs.Walk.{texts};
ghost use Rattle.clap.specs.Words.{first_value, found_of, one_text};
ghost use Rattle.settings.specs.CommandLine.{HasNumber, IsNumeric, IsUsed, chosen, given};
ghost use Rattle.settings.specs.Faults.{IsFaultOf, faults_of};

use crate::command::command_line;
use crate::fault::CommandLineFault;
use clap::ArgMatches;
use std::alloc::Global;

/// The most workers that may be asked for.
pub const MAX_WORKERS: usize = 64;

/// The most pairs that a search may be asked to keep.
pub const MAX_PAIRS: usize = 1_000_000;

/// The most nodes that a normal form may be asked to have.
pub const MAX_NODES: usize = 100_000;

/// What a command line asks of the program.
#[derive(Clone, Copy, Debug, PartialEq, Eq)]
pub struct Settings<'a> {
    /// How many workers search, 1 to 64.
    pub workers: usize,
    /// The most pairs that a search keeps, 1 to 1,000,000.
    pub max_pairs: usize,
    /// The most nodes of a normal form, and the most states of each, 1 to 100,000.
    pub max_nodes: usize,
    /// Whether names are unfolded at once.
    pub at_once: bool,
    /// The name of the script's file.
    pub file: &'a str,
    pub ghost workers_in_range: { (1 ≤ workers) × (workers ≤ 64) },
    pub ghost pairs_in_range: { (1 ≤ max_pairs) × (max_pairs ≤ 1000000) },
    pub ghost nodes_in_range: { (1 ≤ max_nodes) × (max_nodes ≤ 100000) },
}

/// The settings of the words after the program's name.
///
/// The words may ask for the help (`Help`) or the version (`Version`), or be none of the command line's (`Refused`): a
/// word that is no option, an option that is used twice, a value that is no number or lies out of its range, no file,
/// more than one.
pub fn read<'a>(alloc: Global, words: &'a [&'a str]) -> Result<Settings<'a>, CommandLineFault>
    ensures taken { IfOk result (λ _. faults_of (texts words.entry.now) ≡ []) }
    ensures workers { IfOk result (λ s. s.workers ≡ chosen (codes "workers") 1
        (texts words.entry.now)) }
    ensures pairs { IfOk result (λ s. s.max_pairs ≡ chosen (codes "max-pairs") 100000
        (texts words.entry.now)) }
    ensures nodes { IfOk result (λ s. s.max_nodes ≡ chosen (codes "max-nodes") 10000
        (texts words.entry.now)) }
    ensures at_once { IfOk result (λ s. IsTrue s.at_once
        ↔ IsUsed (codes "unfold") (texts words.entry.now)) }
    ensures file { IfOk result (λ s. given (codes "file") (texts words.entry.now)
        ≡ Some s.file.now) }
    ensures fault { IfErr result (IsFaultOf (texts words.entry.now)) }
{
    let matches = match command_line(alloc)?.try_get_matches_from(words) {
        Ok(matches) => matches,
        Err(error) => return Err(CommandLineFault::of(alloc, &error)),
    };
    Ok(Settings {
        workers: number(&matches, "workers"),
        max_pairs: number(&matches, "max-pairs"),
        max_nodes: number(&matches, "max-nodes"),
        at_once: is_used(&matches, "unfold"),
        file: matches.get_str("file").unwrap(),
    })
}

/// The number of an argument that has one.
pub fn number(matches: &ArgMatches<'_>, name: &str) -> usize
    requires { IsNumeric (one_text (found_of matches.now) name.now) }
    ensures { HasNumber (one_text (found_of matches.now) name.now) result }
{
    matches.get_one::<usize>(name).unwrap()
}

/// Whether the words use the flag, whose value is then `true`.
pub fn is_used(matches: &ArgMatches<'_>, flag: &str) -> bool
    ensures { IsTrue result ↔ first_value (found_of matches.now) flag.now ≡ Some (codes "true") }
{
    match matches.get_str(flag) {
        Some(value) => value == "true",
        None => false,
    }
}
