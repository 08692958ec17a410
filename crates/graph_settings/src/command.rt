//! The arguments of the command line, as `clap` takes them.

ghost use Rattle.std.specs.Prelude.{◌≡◌, IfOk, false};
ghost use Rattle.clap.specs.Words.{app_of, rule_of};
ghost use Rattle.settings.specs.CommandLine.{file_rule};
ghost use Rattle.graph_settings.specs.CommandLine.{assertion_rule, command_line, format_rule, states_rule};

use crate::help::{ABOUT, MORE, VERSION};
use clap::{Arg, ArgAction, Command};
use settings::flag;
use std::alloc::{AllocError, Global};

/// The most states that a graph may be asked to have.
pub const MAX_STATES: usize = 1_000_000;

// The greatest number of an assertion that may be asked for. A text has no more.
const MAX_ASSERTION: usize = 1_000_000;

// What is told of the option `--unfold`.
const UNFOLD: &str = "Unfold names at once, as FDR does: a graph with fewer taus";

// What is told of the option `--specification`.
const SPECIFICATION: &str =
    "Print the graph of the specification, in place of the implementation's";

// What is told of the option `--progress`.
const PROGRESS: &str =
    "Tell on standard error once a second how many states are found, as is done on a terminal";

/// The command line of the program, without the program's name.
pub(crate) fn command_line<'a>(alloc: Global) -> Result<Command<'a>, AllocError>
    ensures { IfOk result (λ c. app_of c ≡ command_line) }
{
    let format = format_option(alloc);
    let states = states_option(alloc);
    let unfolded = flag(alloc, "unfold", UNFOLD);
    let specification = flag(alloc, "specification", SPECIFICATION);
    let progress = flag(alloc, "progress", PROGRESS);
    let file = file_argument(alloc);
    let assertion = assertion_argument(alloc);
    Command::new(alloc, "graph")
        .no_binary_name(true)
        .version(VERSION)
        .about(ABOUT)
        .after_help(MORE)
        .arg(format)?
        .arg(states)?
        .arg(unfolded)?
        .arg(specification)?
        .arg(progress)?
        .arg(file)?
        .arg(assertion)
}

fn format_option<'a>(alloc: Global) -> Arg<'a>
    ensures rule { rule_of result ≡ format_rule }
    ensures local { result.global ≡ false }
{
    Arg::new(alloc, "format")
        .long("format")
        .value_name("FORMAT")
        .help("How the graph is printed: aut or dot")
        .action(ArgAction::Set)
        .value_parser(clap::value_parser!(String))
        .default_value("aut")
}

fn states_option<'a>(alloc: Global) -> Arg<'a>
    ensures rule { rule_of result ≡ states_rule }
    ensures local { result.global ≡ false }
{
    Arg::new(alloc, "max-states")
        .long("max-states")
        .value_name("M")
        .help("The most states that the graph may have, 1 to 1000000")
        .action(ArgAction::Set)
        .value_parser(clap::value_parser!(usize).range(1..=MAX_STATES as i64))
        .default_value("100000")
}

fn file_argument<'a>(alloc: Global) -> Arg<'a>
    ensures rule { rule_of result ≡ file_rule }
    ensures local { result.global ≡ false }
{
    Arg::new(alloc, "file")
        .value_name("FILE")
        .help("The script, or - for standard input")
        .required(true)
        .action(ArgAction::Set)
}

fn assertion_argument<'a>(alloc: Global) -> Arg<'a>
    ensures rule { rule_of result ≡ assertion_rule }
    ensures local { result.global ≡ false }
{
    Arg::new(alloc, "assertion")
        .value_name("N")
        .help("The number of the assertion, from 1 on")
        .required(true)
        .action(ArgAction::Set)
        .value_parser(clap::value_parser!(usize).range(1..=MAX_ASSERTION as i64))
}
