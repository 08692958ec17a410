//! The options of the command line, as `clap` takes them.

ghost use Rattle.std.specs.Prelude.{◌≡◌, ◌≤◌, IfOk, false};
ghost use Rattle.clap.specs.Words.{app_of, rule_of};
ghost use Rattle.settings.specs.CommandLine.{command_line, flag_rule, number_rule};

use crate::help::{ABOUT, LINES_AND_STATUS, VERSION};
use crate::settings::{MAX_NODES, MAX_PAIRS, MAX_WORKERS};
use clap::{Arg, ArgAction, Command};
use std::alloc::{AllocError, Global};

/// What is told of the option that reads names at once.
pub const UNFOLD: &str =
    "Unfold names at once, as FDR does: the same answers from fewer states; the trace shown may be another one";

/// The command line of the program, without the program's name.
pub(crate) fn command_line<'a>(alloc: Global) -> Result<Command<'a>, AllocError>
    ensures { IfOk result (λ c. app_of c ≡ command_line) }
{
    let workers = number(alloc, "workers", "1", MAX_WORKERS).help(
        "How many workers search, 1 to 64; they change no line",
    );
    let pairs = number(alloc, "max-pairs", "100000", MAX_PAIRS).help(
        "The most pairs that a search keeps, 1 to 1000000",
    );
    let nodes = number(alloc, "max-nodes", "10000", MAX_NODES).help(
        "The most nodes of a specification, 1 to 100000",
    );
    let unfolded = flag(alloc, "unfold", UNFOLD);
    let file = Arg::new(alloc, "file")
        .value_name("FILE")
        .help("The script to check, or - for standard input")
        .required(true)
        .action(ArgAction::Set);
    Command::new(alloc, "refcheck")
        .no_binary_name(true)
        .version(VERSION)
        .about(ABOUT)
        .after_help(LINES_AND_STATUS)
        .arg(workers)?
        .arg(pairs)?
        .arg(nodes)?
        .arg(unfolded)?
        .arg(file)
}

// An option that takes a number from 1 to `most`.
fn number<'a>(alloc: Global, name: &'a str, default: &'a str, most: usize) -> Arg<'a>
    requires { most ≤ 1000000 }
    ensures rule { rule_of result ≡ number_rule name.now default.now most }
    ensures local { result.global ≡ false }
{
    Arg::new(alloc, name)
        .long(name)
        .value_name("N")
        .action(ArgAction::Set)
        .value_parser(clap::value_parser!(usize).range(1..=most as i64))
        .default_value(default)
}

/// An option without a value of its own.
pub fn flag<'a>(alloc: Global, name: &'a str, help: &'a str) -> Arg<'a>
    ensures rule { rule_of result ≡ flag_rule name.now }
    ensures local { result.global ≡ false }
{
    Arg::new(alloc, name)
        .long(name)
        .action(ArgAction::SetTrue)
        .help(help)
}
