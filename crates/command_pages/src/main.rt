//! Compares the manual pages and the completions of the programs with what their help tells.
//!
//! The words are names of files, each with its program's name before the first dot. Each option that the help has and the
//! file lacks is told, and each that the file has and the help lacks. What else stands in a page is text for a reader, of
//! which nothing is looked at.
#![tactic(auto)]

mod help;
mod options;

use anyhow::Result;
use help::help_of;
use options::options_of;
use std::alloc::Global;
use std::process::ExitCode;
use std::rt::Files;
use std::sync::Wait;
use std::thread::Threads;
use std::{env, fs};

// Whether the option is one of these.
fn is_among(option: &str, others: &[&str]) -> bool {
    others.iter().any(|other| *other == option)
}

/// Whether all options of the one are options of the other. Each that is not is told.
fn are_among<R: Print>(rt: &R, name: &str, options: &[&str], others: &[&str]) -> Result<bool> {
    let mut are_among = true;
    for option in options {
        if !is_among(option, others) {
            println!(rt; "{name}: only one of the page and the help has {option}")?;
            are_among = false;
        }
    }
    Ok(are_among)
}

/// Whether the file of that name has the options of its program's help, and no others.
fn is_as_told<R: Threads + Wait + Sync + Print + Files + AllocGlobal>(
    rt: &R,
    alloc: Global,
    name: &str,
) -> Result<bool> {
    let Some((program, _)) = name.split_once('.') else {
        return Ok(false);
    };
    let help = help_of(rt, alloc, program);
    let told = options_of(alloc, str::from_utf8(&help)?)?;
    // A manual page has a backslash before a hyphen.
    let page = fs::read_to_string(rt, name)?.replace(alloc, r"\-", "-")?;
    let written = options_of(alloc, &page)?;
    let has_all = are_among(rt, name, &told, &written)?;
    let has_no_others = are_among(rt, name, &written, &told)?;
    println!(rt; "{name}: {} options", written.len())?;
    Ok(has_all && has_no_others)
}

fn main(rt: HostRuntime) -> Result<ExitCode> {
    let mut are_all = true;
    for name in env::args(&rt)?.skip(1) {
        are_all &= is_as_told(&rt, rt.alloc(), name.as_str())?;
    }
    Ok(if are_all {
        ExitCode::SUCCESS
    } else {
        ExitCode::FAILURE
    })
}
