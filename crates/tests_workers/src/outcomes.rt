//! The answer is the same for every number of workers, and in whichever order they put. Each worker draws, and keeps its
//! firing.

ghost use Rattle.std.specs.Prelude.{◌≤◌, IfSome};
ghost use Rattle.theory_search.specs.Terms.{IsAssertionOf};
ghost use Rattle.csp_term.specs.Script.{assertion_of, script_of};

use crate::counting::Counting;
use crate::gates::Holding;
use crate::gathering::Gathering;
use crate::scripts::{
    A_HUNDRED_VIOLATIONS, IN_A_BUFFER_OF_ONE, IN_A_BUFFER_OF_TWO, ONE_PART, ONE_WIDE_LEVEL,
    THREE_WIDE_LEVELS, TWO_COPIERS, TWO_PARTS, script,
};
use csp_term::{Assertion, Script};
use explore::{Gate, Open, explore, explore_alone};
use pair_store::Limits;
use report::{Buffer, write};
use std::alloc::Global;
use std::process::Abort;
use std::sync::Wait;
use std::test::Fail;
use std::thread::Threads;
use verdict::Outcome;

// A script, the levels of a hundred rows in which a worker is held, the puts of others that it waits for, and the
// lines.
type Held = (&'static str, u64, u64, &'static str);

static HELD: [Held; 5] = [
    (ONE_WIDE_LEVEL, 1, 1, "1 holds\n"),
    (ONE_WIDE_LEVEL, 1, 3, "1 holds\n"),
    (THREE_WIDE_LEVELS, 3, 1, "1 holds\n"),
    (THREE_WIDE_LEVELS, 3, 3, "1 holds\n"),
    (
        A_HUNDRED_VIOLATIONS,
        1,
        3,
        "1 fails trace <c.0> event d.0\n",
    ),
];

// A script, and the line of its assertion.
static CHAINS: [(&str, &str); 2] = [
    (IN_A_BUFFER_OF_TWO, "1 holds\n"),
    (IN_A_BUFFER_OF_ONE, "1 fails trace <in.0> event in.0\n"),
];

const HOLDS: &str = "1 holds\n";

// The draws of a level of a hundred rows.
const DRAWS: usize = 4;

// A script without a deadlock, and of the one worker: its draws, one a level, the parts that its firing knows in the end,
// with the process that has ended, the terms that it made as trees, and those that it fired as a whole.
static COUNTED: [(&str, [u64; 4]); 3] = [
    (TWO_PARTS, [5, 7, 0, 0]),
    (TWO_COPIERS, [7, 9, 0, 0]),
    (ONE_PART, [3, 4, 0, 0]),
];

// The answer to the assertion, by so many workers, or by the caller alone where no number is given.
fn outcome<R: Threads + Wait + Sync, G: Gate>(
    alloc: Global,
    rt: &R,
    script: &Script<Global>,
    assertion: &Assertion<Global>,
    workers: Option<usize>,
    gate: &G,
) -> Outcome<Global>
    requires terms { IsAssertionOf (script_of script.now) (assertion_of assertion.now) }
    requires workers { IfSome workers (λ number. (1 ≤ number) × (number ≤ 64)) }
{
    let limits = Limits::new(1000, 100);
    match workers {
        Some(number) => explore(alloc, rt, script, assertion, limits, number, gate),
        None => explore_alone(alloc, script, assertion, limits),
    }
}

// The line of the text's one assertion, by so many workers or by the caller alone.
fn line_by<R: Threads + Wait + Sync, G: Gate>(
    alloc: Global,
    rt: &R,
    text: &str,
    workers: Option<usize>,
    gate: &G,
) -> Result<Vec<u8>, Fail>
    requires { IfSome workers (λ number. (1 ≤ number) × (number ≤ 64)) }
{
    let script = script(alloc, text)?;
    let Some(assertion) = script.assertions().first() else {
        return Err(Fail::new("no assertion"));
    };
    let outcomes = [outcome(alloc, rt, &script, assertion, workers, gate)];
    let mut line = Buffer::new(alloc);
    write(&script, &outcomes, &mut line)?;
    Ok(line.bytes)
}

fn is_answered_held<R: Abort + Threads + Wait + Sync>(
    rt: &R,
    alloc: Global,
    row: &Held,
) -> Result<(), Fail> {
    let (text, levels, others, expected) = *row;
    let alone = line_by(alloc, rt, text, Some(1), &Open)?;
    assert!(rt; alone.as_slice() == expected.as_bytes(), "alone at {text}");
    let gate = Holding::new(levels, others);
    let together = line_by(alloc, rt, text, Some(2), &gate)?;
    assert!(rt; together.as_slice() == expected.as_bytes(), "at {text}");
    assert!(rt; gate.held_and_saw(), "nobody overtook at {text}");
    Ok(())
}

#[test]
fn two_workers(rt: HostRuntime) -> Result<(), Fail> {
    for row in &HELD {
        is_answered_held(&rt, rt.alloc(), row)?;
    }
    Ok(())
}

#[test]
fn the_caller_alone(rt: HostRuntime) -> Result<(), Fail> {
    for (text, expected) in &CHAINS {
        let line = line_by(rt.alloc(), &rt, text, None, &Open)?;
        assert!(rt; line.as_slice() == expected.as_bytes(), "at {text}");
    }
    Ok(())
}

#[test]
fn many_workers(rt: HostRuntime) -> Result<(), Fail> {
    for workers in [1, 2, 8, 64] {
        for (text, expected) in &CHAINS {
            let line = line_by(rt.alloc(), &rt, text, Some(workers), &Open)?;
            assert!(rt;
                line.as_slice() == expected.as_bytes(),
                "by {workers} at {text}"
            );
        }
    }
    Ok(())
}

#[test]
fn each_worker_draws(rt: HostRuntime) -> Result<(), Fail> {
    for workers in [1, 2, 3, 4, 8, 64] {
        let expected = workers.min(DRAWS) as u64;
        let gate = Gathering::new(expected);
        let line = line_by(rt.alloc(), &rt, ONE_WIDE_LEVEL, Some(workers), &gate)?;
        assert!(rt; line.as_slice() == HOLDS.as_bytes(), "by {workers}");
        assert_eq!(rt; gate.gathered(), expected);
    }
    Ok(())
}

#[test]
fn a_worker_keeps_its_firing(rt: HostRuntime) -> Result<(), Fail> {
    for (text, expected) in &COUNTED {
        let gate = Counting::new();
        let line = line_by(rt.alloc(), &rt, text, Some(1), &gate)?;
        assert!(rt; line.as_slice() == HOLDS.as_bytes(), "at {text}");
        assert_eq!(rt; gate.counts(), *expected);
    }
    Ok(())
}
