//! Runs `refcheck`, `explain`, `graph` and `walk` over cases that stand in files, and tells each that is answered otherwise
//! than it says.
//!
//! The words are the names of tables, each a text: what it is about, and then its cases, by the lines
//!
//! - `@@ ` with the words of a command line, the program's name first, and behind it the text of the file `script`, or of
//!   standard input where the words name that by `-`, and of a walk behind the line `@>` the lines that it is given;
//! - `@@ ` with the status, and behind it what the run gives: to its output, or, with the status 3, to its errors. `fine`
//!   stands for any status but 3, whatever the run gives, `begins` for 0 with a beginning of what it gives, `noted` for 0
//!   with what it gives to its errors alone, and `alike` for the words that the first run of the case gives: its lines,
//!   each up to the trace that it shows. `judged` stands for the same, where besides each assertion of refinement is judged
//!   by brute force from the graphs of its sides, as `graph` prints them, and has this answer.
//!
//! With `--workers=*` a case is run by several numbers of workers, and with `[--unfold]` without and with this word. A
//! case costs no proof, so that one more is some lines of text. What a table cannot show, as a memory that refuses or an
//! output that breaks off, is left to the tests.
#![tactic(auto)]

mod aldebaran;
mod case;
mod judge;
mod judging;
mod lines;
mod told;

use anyhow::Result;
use case::{Case, cases_of};
use judging::are_judged_so;
use std::alloc::Global;
use std::process::ExitCode;
use std::rt::Files;
use std::sync::Wait;
use std::thread::Threads;
use std::{env, fs};
use told::{Told, told_by};

/// By how many workers a case is run in turn, where it says `--workers=*`.
const WORKERS: [&str; 4] = ["--workers=1", "--workers=2", "--workers=8", "--workers=64"];

/// The word that a case is run without and with, where it says so.
const UNFOLD: &str = "[--unfold]";

/// What stands in place of a status where all runs of a case are to give the same words.
const ALIKE: &str = "alike";

/// The same, where the graphs of both sides are to bear out each answer besides.
const JUDGED: &str = "judged";

/// How one run of a case reads its words.
#[derive(Clone, Copy)]
struct Reading {
    /// What stands for `--workers=*`.
    workers: &'static str,
    /// Whether names are unfolded at once where the case leaves that open.
    unfolds: bool,
}

/// By how many numbers of workers a case is run.
fn numbers_of(case: &Case<'_>) -> usize {
    if case.words.contains("--workers=*") {
        WORKERS.len()
    } else {
        1
    }
}

/// What a run of the case gives.
fn run<R: Threads + Wait + Sync>(
    rt: &R,
    alloc: Global,
    case: &Case<'_>,
    reading: Reading,
) -> Result<Told> {
    let mut words = Vec::new(alloc);
    for word in case.words.split_whitespace() {
        match word {
            "--workers=*" => words.push(reading.workers)?,
            UNFOLD if reading.unfolds => words.push("--unfold")?,
            UNFOLD => {}
            _ => words.push(word)?,
        }
    }
    Ok(told_by(rt, alloc, &words, case.text))
}

/// Whether each run of the case with names read so gives what it says, or the words of the first run, where it says so.
/// What is given otherwise is told.
fn is_as_said<R: Threads + Wait + Sync + Print>(
    rt: &R,
    alloc: Global,
    name: &str,
    case: &Case<'_>,
    unfolds: bool,
) -> Result<bool> {
    let mut is_as_said = true;
    let workers = WORKERS[0];
    let first = run(
        rt,
        alloc,
        case,
        Reading {
            workers,
            unfolds: false,
        },
    )?;
    for workers in WORKERS.iter().take(numbers_of(case)) {
        let workers = *workers;
        let told = run(rt, alloc, case, Reading { workers, unfolds })?;
        let is_said = match case.status {
            ALIKE => told.is_alike(&first),
            JUDGED => told.is_alike(&first) && are_judged_so(rt, alloc, case.text, &told)?,
            _ => told.is_as_said(case),
        };
        if !is_said {
            println!(rt; "{name}: {}\n{}\n{told}", case.words, case.text)?;
            is_as_said = false;
        }
    }
    Ok(is_as_said)
}

/// Whether all cases of the table of that name are as they say.
fn are_as_said<R: Threads + Wait + Sync + Print + Files + AllocGlobal>(
    rt: &R,
    alloc: Global,
    name: &str,
) -> Result<bool> {
    let table = fs::read_to_string(rt, name)?;
    let cases = cases_of(alloc, &table)?;
    let mut are_as_said = true;
    for case in &cases {
        are_as_said &= is_as_said(rt, alloc, name, case, false)?;
        if case.words.contains(UNFOLD) {
            are_as_said &= is_as_said(rt, alloc, name, case, true)?;
        }
    }
    println!(rt; "{name}: {} cases", cases.len())?;
    Ok(are_as_said)
}

fn main(rt: HostRuntime) -> Result<ExitCode> {
    let mut are_all = true;
    for name in env::args(&rt)?.skip(1) {
        are_all &= are_as_said(&rt, rt.alloc(), name.as_str())?;
    }
    Ok(if are_all {
        ExitCode::SUCCESS
    } else {
        ExitCode::FAILURE
    })
}
