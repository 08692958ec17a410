//! The arguments of the command line, as `clap` takes them.

ghost use Rattle.std.specs.Prelude.{◌≡◌, ◌≤◌, IfOk, codes, false};
ghost use Rattle.clap.specs.Words.{app_of, rule_of};
ghost use Rattle.settings.specs.CommandLine.{file_rule, number_rule};
ghost use Rattle.explain_settings.specs.CommandLine.{command_line, count_rule, format_rule, line_of, option_rules};

use crate::help::{ABOUT, STATUS, VERSION};
use clap::{Arg, ArgAction, Command};
use settings::{MAX_NODES, MAX_PAIRS, MAX_WORKERS, UNFOLD, flag};
use std::alloc::{AllocError, Global};

/// The most characters of a state that may be asked for, and the greatest number of an assertion. A text has no more.
pub(crate) const MOST: usize = 1_000_000;

// What is told of the option `--count`.
const COUNT: &str =
    "Tell how many pairs and nodes the search of each assertion had, its time and the most memory";

// What is told of the option `--events`.
const EVENTS: &str = "Tell of each path its events alone, seen and hidden, and its last state";

// What is told of the option `--progress`.
const PROGRESS: &str =
    "Tell on standard error once a second how far a search is, as is done on a terminal";

// What is told of the option `--steps`.
const STEPS: &str = "Tell steps that unfold a name one by one; with --events that changes nothing";

/// The command line of the program, without the program's name.
pub(crate) fn command_line<'a>(alloc: Global) -> Result<Command<'a>, AllocError>
    ensures { IfOk result (λ c. app_of c ≡ command_line) }
{
    let progress = flag(alloc, "progress", PROGRESS);
    let file = file(alloc);
    let assertion = assertion(alloc);
    options_line(alloc)?
        .arg(progress)?
        .arg(file)?
        .arg(assertion)
}

// The same with the options alone that say what is checked and what is told of it.
fn options_line<'a>(alloc: Global) -> Result<Command<'a>, AllocError>
    ensures { IfOk result (λ c. app_of c ≡ line_of option_rules) }
{
    let workers = option(alloc, "workers", "1", MAX_WORKERS).help(
        "How many workers search, 1 to 64; they change no line",
    );
    let pairs = option(alloc, "max-pairs", "100000", MAX_PAIRS).help(
        "The most pairs that a search keeps, 1 to 1000000",
    );
    let nodes = option(alloc, "max-nodes", "10000", MAX_NODES).help(
        "The most nodes of a specification, 1 to 100000",
    );
    let width = count(alloc, "width", "200", MOST).long("width").help(
        "The most characters that are told of a state, or 0 for all of it",
    );
    let unfolded = flag(alloc, "unfold", UNFOLD);
    let counted = flag(alloc, "count", COUNT);
    let events = flag(alloc, "events", EVENTS);
    let steps = flag(alloc, "steps", STEPS);
    let format = format(alloc);
    Command::new(alloc, "explain")
        .no_binary_name(true)
        .version(VERSION)
        .about(ABOUT)
        .after_help(STATUS)
        .arg(workers)?
        .arg(pairs)?
        .arg(nodes)?
        .arg(unfolded)?
        .arg(width)?
        .arg(counted)?
        .arg(events)?
        .arg(steps)?
        .arg(format)
}

fn file<'a>(alloc: Global) -> Arg<'a>
    ensures rule { rule_of result ≡ file_rule }
    ensures local { result.global ≡ false }
{
    Arg::new(alloc, "file")
        .value_name("FILE")
        .help("The script to check, or - for standard input")
        .required(true)
        .action(ArgAction::Set)
}

fn format<'a>(alloc: Global) -> Arg<'a>
    ensures rule { rule_of result ≡ format_rule }
    ensures local { result.global ≡ false }
{
    Arg::new(alloc, "format")
        .long("format")
        .value_name("FORMAT")
        .help("How it is told: text, or json, a line of JSON for each assertion")
        .action(ArgAction::Set)
        .value_parser(clap::value_parser!(String))
        .default_value("text")
}

fn assertion<'a>(alloc: Global) -> Arg<'a>
    ensures rule { rule_of result ≡ count_rule (codes "assertion") (codes "0") 1000000 }
    ensures local { result.global ≡ false }
{
    count(alloc, "assertion", "0", MOST).help(
        "The number of the assertion to tell of, or 0 for each",
    )
}

// An option that takes a number from 1 to `most`.
fn option<'a>(alloc: Global, name: &'a str, default: &'a str, most: usize) -> Arg<'a>
    requires { most ≤ 1000000 }
    ensures rule { rule_of result ≡ number_rule name.now default.now most }
    ensures local { result.global ≡ false }
{
    Arg::new(alloc, name)
        .long(name)
        .value_name("N")
        .action(ArgAction::Set)
        .value_parser(clap::value_parser!(usize).range(1..=most as i64))
        .default_value(default)
}

// An argument that takes a number up to `most`.
fn count<'a>(alloc: Global, name: &'a str, default: &'a str, most: usize) -> Arg<'a>
    requires { most ≤ 1000000 }
    ensures rule { rule_of result ≡ count_rule name.now default.now most }
    ensures local { result.global ≡ false }
{
    Arg::new(alloc, name)
        .value_name("N")
        .action(ArgAction::Set)
        .value_parser(clap::value_parser!(usize).range(0..=most as i64))
        .default_value(default)
}
