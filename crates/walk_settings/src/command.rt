//! The arguments of the command line, as `clap` takes them.

ghost use Rattle.std.specs.Prelude.{◌≡◌, IfOk, false};
ghost use Rattle.clap.specs.Words.{app_of, rule_of};
ghost use Rattle.settings.specs.CommandLine.{file_rule};
ghost use Rattle.walk_settings.specs.CommandLine.{assertion_rule, command_line, width_rule};

use crate::help::{ABOUT, MORE, VERSION};
use clap::{Arg, ArgAction, Command};
use settings::flag;
use std::alloc::{AllocError, Global};

// The most characters of a state that may be asked for, and the greatest number of an assertion. A text has no more.
const MOST: usize = 1_000_000;

// What is told of the option `--unfold`.
const UNFOLD: &str = "Unfold names at once, as FDR does: fewer taus on the way";

// What is told of the option `--specification`.
const SPECIFICATION: &str = "Walk through the specification, in place of the implementation";

/// The command line of the program, without the program's name.
pub(crate) fn command_line<'a>(alloc: Global) -> Result<Command<'a>, AllocError>
    ensures { IfOk result (λ c. app_of c ≡ command_line) }
{
    let width = width_option(alloc);
    let unfolded = flag(alloc, "unfold", UNFOLD);
    let specification = flag(alloc, "specification", SPECIFICATION);
    let file = file_argument(alloc);
    let assertion = assertion_argument(alloc);
    Command::new(alloc, "walk")
        .no_binary_name(true)
        .version(VERSION)
        .about(ABOUT)
        .after_help(MORE)
        .arg(width)?
        .arg(unfolded)?
        .arg(specification)?
        .arg(file)?
        .arg(assertion)
}

fn width_option<'a>(alloc: Global) -> Arg<'a>
    ensures rule { rule_of result ≡ width_rule }
    ensures local { result.global ≡ false }
{
    Arg::new(alloc, "width")
        .long("width")
        .value_name("N")
        .help("The most characters that are shown of a state, or 0 for all of it")
        .action(ArgAction::Set)
        .value_parser(clap::value_parser!(usize).range(0..=MOST as i64))
        .default_value("200")
}

fn file_argument<'a>(alloc: Global) -> Arg<'a>
    ensures rule { rule_of result ≡ file_rule }
    ensures local { result.global ≡ false }
{
    Arg::new(alloc, "file")
        .value_name("FILE")
        .help("The script, or - for standard input, which then has no commands")
        .required(true)
        .action(ArgAction::Set)
}

fn assertion_argument<'a>(alloc: Global) -> Arg<'a>
    ensures rule { rule_of result ≡ assertion_rule }
    ensures local { result.global ≡ false }
{
    Arg::new(alloc, "assertion")
        .value_name("N")
        .help("The number of the assertion, from 1 on")
        .required(true)
        .action(ArgAction::Set)
        .value_parser(clap::value_parser!(usize).range(1..=MOST as i64))
}
